//! A text that is built: elements, and characters between them.
ghost use Rattle.std.specs.Prelude.{◌≡◌, ◌≤◌, ◌<◌, ◌+◌, ◌++◌, OnOk, IfOk, nat_lt};
ghost use Rattle.svg_text.specs.Characters.{escaped};
ghost use Rattle.svg_text.specs.Tree.{element_text};
ghost use Rattle.svg_text.specs.Writing.{IsMarkup, IsPicture, most_elements};

use crate::attributes::Attributes;
use crate::characters::put_signs;
use crate::names::Tag;
use std::alloc::{AllocError, Global};

/// The most elements of a picture.
pub const MOST_ELEMENTS: usize = 2000;

/// The text of an element around what is inside it.
fn element_around(
    alloc: Global,
    tag: Tag,
    attributes: &[u8],
    inside: &[u8],
) -> Result<Vec<u8>, AllocError>
    ensures { IfOk result (λ text. text.items ≡ element_text tag attributes.now inside.now) }
{
    let mut text = Vec::new(alloc);
    text.extend_from_slice(b"<")?;
    text.extend_from_slice(tag.name())?;
    text.extend_from_slice(attributes)?;
    text.extend_from_slice(b">")?;
    text.extend_from_slice(inside)?;
    text.extend_from_slice(b"</")?;
    text.extend_from_slice(tag.name())?;
    text.extend_from_slice(b">")?;
    Ok(text)
}

/// Elements and characters, one after another.
#[derive(Drop)]
pub struct Markup {
    alloc: Global,
    text: Vec<u8>,
    /// How many elements there are.
    count: usize,
    ghost tree: { ∥ IsMarkup text.items count ∥₁ },
    ghost few: { count ≤ most_elements },
}

impl Markup {
    /// Nothing yet.
    pub fn new(alloc: Global) -> Markup
        ensures { result.count ≡ 0 }
    {
        Markup {
            alloc,
            text: Vec::new(alloc),
            count: 0,
        }
    }

    /// How many elements there are.
    pub fn count(&self) -> usize
        ensures value { result ≡ self.now.count }
        ensures few { result ≤ most_elements }
    {
        self.count
    }

    /// There is room for an element around this.
    pub fn has_room(&self, inside: &Markup) -> bool
        ensures { result ≡ nat_lt (self.now.count + inside.now.count) most_elements }
    {
        self.count + inside.count < MOST_ELEMENTS
    }

    /// Characters more.
    pub fn signs(&mut self, signs: &[u32]) -> Result<(), AllocError>
        ensures { OnOk result (self.new.text.items ≡ self.old.text.items ++ escaped signs.now) }
    {
        let mut text = Vec::new(self.alloc);
        put_signs(&mut text, signs)?;
        self.text.extend_from_slice(text.as_slice())?;
        Ok(())
    }

    /// An element more, around what is inside it; none if there is no room.
    pub fn element(
        &mut self,
        tag: Tag,
        attributes: &Attributes,
        inside: &Markup,
    ) -> Result<(), AllocError>
        ensures puts { OnOk result (self.old.count + inside.now.count < most_elements →
            self.new.text.items ≡ self.old.text.items ++ element_text tag attributes.now.text.items inside.now.text.items) }
    {
        if !self.has_room(inside) {
            return Ok(());
        }
        let text = element_around(self.alloc, tag, attributes.text(), inside.text.as_slice())?;
        self.text.extend_from_slice(text.as_slice())?;
        self.count = self.count + inside.count + 1;
        Ok(())
    }
}

/// The text of a whole picture.
pub fn picture(
    alloc: Global,
    attributes: &Attributes,
    inside: &Markup,
) -> Result<Vec<u8>, AllocError>
    requires { inside.now.count < most_elements }
    ensures { IfOk result (λ text. IsPicture text.items) }
{
    let mut text = element_around(alloc, Tag::Svg, attributes.text(), inside.text.as_slice())?;
    text.extend_from_slice(b"\n")?;
    Ok(text)
}
