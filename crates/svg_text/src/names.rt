//! The names of elements and attributes.
ghost use Rattle.std.specs.Prelude.{◌≡◌, ◌<◌};

/// An element's name.
#[derive(Clone, Copy, Debug, PartialEq, Eq)]
pub enum Tag {
    Svg,
    Title,
    Style,
    Defs,
    Pattern,
    G,
    Rect,
    Path,
    Text,
}

/// An attribute's name, in the order in which attributes stand.
#[derive(Clone, Copy, Debug, PartialEq, Eq)]
pub enum Key {
    Xmlns,
    ViewBox,
    Role,
    Id,
    X,
    Y,
    Width,
    Height,
    PatternUnits,
    PatternTransform,
    D,
    Class,
}

impl Tag {
    ghost use Rattle.svg_text.specs.Tree.{tag_name};

    /// The name as it stands in a text.
    #[tactic(auto, unfolding(crate::specs::Tree::tag_name))]
    pub fn name(self) -> &'static [u8]
        ensures { result.now ≡ tag_name self }
    {
        match self {
            Tag::Svg => b"svg",
            Tag::Title => b"title",
            Tag::Style => b"style",
            Tag::Defs => b"defs",
            Tag::Pattern => b"pattern",
            Tag::G => b"g",
            Tag::Rect => b"rect",
            Tag::Path => b"path",
            Tag::Text => b"text",
        }
    }
}

impl Key {
    ghost use Rattle.svg_text.specs.Tree.{key_name, key_place};

    /// The name as it stands in a text.
    #[tactic(auto, unfolding(crate::specs::Tree::key_name))]
    pub fn name(self) -> &'static [u8]
        ensures { result.now ≡ key_name self }
    {
        match self {
            Key::Xmlns => b"xmlns",
            Key::ViewBox => b"viewBox",
            Key::Role => b"role",
            Key::Id => b"id",
            Key::X => b"x",
            Key::Y => b"y",
            Key::Width => b"width",
            Key::Height => b"height",
            Key::PatternUnits => b"patternUnits",
            Key::PatternTransform => b"patternTransform",
            Key::D => b"d",
            Key::Class => b"class",
        }
    }

    /// Its place among the names.
    #[tactic(auto, unfolding(crate::specs::Tree::key_place))]
    pub fn place(self) -> u8
        ensures value { result ≡ key_place self }
        ensures below { result < 12 }
    {
        match self {
            Key::Xmlns => 0,
            Key::ViewBox => 1,
            Key::Role => 2,
            Key::Id => 3,
            Key::X => 4,
            Key::Y => 5,
            Key::Width => 6,
            Key::Height => 7,
            Key::PatternUnits => 8,
            Key::PatternTransform => 9,
            Key::D => 10,
            Key::Class => 11,
        }
    }
}
