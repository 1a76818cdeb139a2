//! The attributes of an element.
ghost use Rattle.std.specs.Prelude.{◌≡◌, ◌≤◌, ◌++◌, OnOk, IfOk};
ghost use Rattle.svg_text.specs.Tree.{attribute_text, key_place};
ghost use Rattle.svg_text.specs.Writing.{AreAttributes};

use crate::characters::put_signs;
use crate::names::Key;
use std::alloc::{AllocError, Global};

/// The text of an attribute.
#[tactic(auto, unfolding(crate::specs::Tree::attribute_text))]
fn one_text(alloc: Global, name: Key, value: &[u32]) -> Result<Vec<u8>, AllocError>
    ensures { IfOk result (λ text. text.items ≡ attribute_text (record { name = name; value = value.now })) }
{
    let mut text = Vec::new(alloc);
    text.extend_from_slice(b" ")?;
    text.extend_from_slice(name.name())?;
    text.extend_from_slice(b"=\"")?;
    put_signs(&mut text, value)?;
    text.extend_from_slice(b"\"")?;
    Ok(text)
}

/// The attributes of an element, in the order of their names.
#[derive(Drop)]
pub struct Attributes {
    alloc: Global,
    text: Vec<u8>,
    /// The place of the next name, or of a later one.
    next: u8,
    ghost some: { ∥ AreAttributes text.items next ∥₁ },
    ghost few: { next ≤ 12 },
}

impl Attributes {
    /// No attribute yet.
    pub fn new(alloc: Global) -> Attributes {
        Attributes {
            alloc,
            text: Vec::new(alloc),
            next: 0,
        }
    }

    /// Their text.
    pub(crate) fn text(&self) -> &[u8]
        ensures { result.now ≡ self.now.text.items }
    {
        self.text.as_slice()
    }

    /// One attribute more. One whose name does not come after all others is left out.
    pub fn put(&mut self, name: Key, value: &[u32]) -> Result<(), AllocError>
        ensures puts { OnOk result (self.old.next ≤ key_place name →
            self.new.text.items ≡ self.old.text.items ++ attribute_text (record { name = name; value = value.now })) }
    {
        if name.place() < self.next {
            return Ok(());
        }
        let text = one_text(self.alloc, name, value)?;
        self.text.extend_from_slice(text.as_slice())?;
        self.next = name.place() + 1;
        Ok(())
    }
}
