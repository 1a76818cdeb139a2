//! Elements of a picture, put one after another from above. All places are in tenths of a unit; the picture is 1,000 units wide.
ghost use Rattle.std.specs.Prelude.{◌≡◌};
ghost use Rattle.run_picture.specs.Places.{after_steps, middle_of};

use cloak_base::NoMemory;
use std::alloc::Global;
use svg_text::{Attributes, Key, Label, Markup, Tag};

/// Where the rows begin, and how wide they are.
pub const LEFT: u64 = 1500;

pub const WIDTH: u64 = 8300;

/// Where they end.
pub const RIGHT: u64 = 9800;

/// The most elements of a picture's body.
pub const MOST: u64 = 1900;

/// A place with a size.
#[derive(Clone, Copy)]
pub struct Area {
    pub x: u64,
    pub y: u64,
    pub width: u64,
    pub height: u64,
}

/// A picture's body so far.
#[derive(Drop)]
pub struct Canvas {
    alloc: Global,
    body: Markup,
    /// How many elements were put, also those that there was no room for.
    pub asked: u64,
    /// How far down it goes.
    pub y: u64,
    /// The end of the scale.
    end: u32,
}

/// A number of tenths as an attribute's value.
fn tenths(n: u64) -> Label {
    let mut label = Label::new();
    label.tenths(n);
    label
}

impl Canvas {
    /// Nothing yet.
    pub fn new(alloc: Global, end: u32) -> Canvas {
        Canvas {
            alloc,
            body: Markup::new(alloc),
            asked: 0,
            y: 0,
            end,
        }
    }

    /// What was put.
    pub fn body(&self) -> &Markup {
        &self.body
    }

    /// The place after so many steps.
    pub fn x(&self, steps: u32) -> u64
        ensures { result ≡ after_steps self.now.end steps }
    {
        let way = WIDTH.saturating_mul(u64::from(steps.min(self.end)));
        let part = match way.checked_div(u64::from(self.end)) {
            Some(part) => part,
            None => 0,
        };
        LEFT.saturating_add(part)
    }

    /// The place in the middle of a step; of the opening the left end.
    pub fn middle(&self, step: u32) -> u64
        ensures { result ≡ middle_of self.now.end step }
    {
        let (from, to) = (self.x(step.saturating_sub(1)), self.x(step));
        from.saturating_add(to) / 2
    }

    /// The middle between the middles of two steps.
    pub fn between(&self, first: u32, last: u32) -> u64 {
        self.middle(first).saturating_add(self.middle(last)) / 2
    }

    /// Puts an element.
    fn put(&mut self, tag: Tag, attributes: &Attributes, inside: &Markup) -> Result<(), NoMemory> {
        let count = (inside.count() as u64).saturating_add(1);
        self.asked = self.asked.saturating_add(count);
        if (self.body.count() as u64).saturating_add(count) <= MOST {
            self.body.element(tag, attributes, inside)?;
        }
        Ok(())
    }

    /// Characters, and what is shown if one points there.
    fn inside(&self, signs: &Label, title: &Label) -> Result<Markup, NoMemory> {
        let mut inside = Markup::new(self.alloc);
        inside.signs(signs.signs())?;
        if !title.is_empty() {
            let mut words = Markup::new(self.alloc);
            words.signs(title.signs())?;
            inside.element(Tag::Title, &Attributes::new(self.alloc), &words)?;
        }
        Ok(inside)
    }

    /// A rectangle.
    pub fn rect(&mut self, area: Area, class: &Label, title: &Label) -> Result<(), NoMemory> {
        let mut attributes = Attributes::new(self.alloc);
        attributes.put(Key::X, tenths(area.x).signs())?;
        attributes.put(Key::Y, tenths(area.y).signs())?;
        attributes.put(Key::Width, tenths(area.width).signs())?;
        attributes.put(Key::Height, tenths(area.height).signs())?;
        attributes.put(Key::Class, class.signs())?;
        let inside = self.inside(&Label::new(), title)?;
        self.put(Tag::Rect, &attributes, &inside)
    }

    /// A path from a place on.
    pub fn path(
        &mut self,
        x: u64,
        y: u64,
        rest: &Label,
        class: &Label,
        title: &Label,
    ) -> Result<(), NoMemory> {
        let mut way = Label::of("M");
        way.tenths(x);
        way.text(" ");
        way.tenths(y);
        way.label(rest);
        let mut attributes = Attributes::new(self.alloc);
        attributes.put(Key::D, way.signs())?;
        attributes.put(Key::Class, class.signs())?;
        let inside = self.inside(&Label::new(), title)?;
        self.put(Tag::Path, &attributes, &inside)
    }

    /// A text.
    pub fn titled_text(
        &mut self,
        x: u64,
        y: u64,
        class: &str,
        text: &Label,
        title: &Label,
    ) -> Result<(), NoMemory> {
        let mut attributes = Attributes::new(self.alloc);
        attributes.put(Key::X, tenths(x).signs())?;
        attributes.put(Key::Y, tenths(y).signs())?;
        attributes.put(Key::Class, Label::of(class).signs())?;
        let inside = self.inside(text, title)?;
        self.put(Tag::Text, &attributes, &inside)
    }

    /// A text that shows no more if one points there.
    pub fn text(&mut self, x: u64, y: u64, class: &str, text: &Label) -> Result<(), NoMemory> {
        self.titled_text(x, y, class, text, &Label::new())
    }

    /// So much further down.
    pub fn down(&mut self, by: u64) {
        self.y = self.y.saturating_add(by);
    }
}

/// The head of some rows, with what they show.
pub fn put_section(canvas: &mut Canvas, words: &str, what: &str) -> Result<(), NoMemory> {
    canvas.down(200);
    let label = Label::of(words);
    let x = label.len().saturating_mul(86).saturating_add(260);
    canvas.text(160, canvas.y, "h", &label)?;
    canvas.text(x, canvas.y, "dim sm halo", &Label::of(what))?;
    canvas.down(80);
    Ok(())
}
