//! The text of a picture in SVG, as XML: elements with attributes, and characters between them.
//!
//! `specs/Tree` is a small grammar of XML: a tree of elements has one text. `Markup` is a text that is built, and `Attributes`
//! those of an element. The layer above may rely on this: whatever is put into a `Markup`, its text is that of a tree, in
//! which each character is escaped, no attribute of an element stands twice, and there are at most 2,000 elements: more are
//! not put. `picture` makes the text of the whole. A `Label` is a short text of characters, which forgets what it has no room
//! for. What a want of memory interrupts leaves a text as it was.
#![tactic(auto)]

mod attributes;
mod characters;
mod label;
mod markup;
mod names;

pub use attributes::Attributes;
pub use label::Label;
pub use markup::{MOST_ELEMENTS, Markup, picture};
pub use names::{Key, Tag};
