//! Tags: their bytes, how many bytes stand after each, and where each may stand.
ghost use Rattle.std.specs.Prelude.{◌≡◌};
ghost use Rattle.cloak_model.specs.RecordFault as spec;
ghost use Rattle.record_law.specs.Items as items;

use cloak_model::{Stage, Tag};

/// The tag of a byte.
pub fn tag_of(byte: u8) -> Option<Tag>
    ensures { result ≡ spec.tag_of byte }
{
    match byte {
        0x01 => Some(Tag::Cipher),
        0x02 => Some(Tag::Put),
        0x03 => Some(Tag::Leave),
        0x10 => Some(Tag::Step),
        0x11 => Some(Tag::Close),
        0x12 => Some(Tag::End),
        0x20 => Some(Tag::Ok),
        0x21 => Some(Tag::Absent),
        0x22 => Some(Tag::Word),
        0x23 => Some(Tag::Timer),
        0x24 => Some(Tag::Resume),
        0x25 => Some(Tag::Stopped),
        0x26 => Some(Tag::Ended),
        _ => None,
    }
}

/// How many bytes stand after the tag.
pub fn size_of(tag: Tag) -> usize
    ensures { result ≡ items.size_of tag }
{
    match tag {
        Tag::Cipher => 4100,
        Tag::Put => 9,
        Tag::Leave => 40,
        Tag::Step | Tag::Close => 4,
        Tag::End => 0,
        Tag::Ok | Tag::Timer | Tag::Stopped | Tag::Ended => 1,
        Tag::Absent | Tag::Word => 5,
        Tag::Resume => 9,
    }
}

/// Before the first step only Cipher, Step and Close may stand, after Close only Cipher and End, and no
/// End before Close.
pub fn may_stand(stage: Stage, tag: Tag) -> bool
    ensures { result ≡ spec.may_stand stage tag }
{
    match stage {
        Stage::Opening => matches!(tag, Tag::Cipher | Tag::Step | Tag::Close),
        Stage::Steps(_) => !matches!(tag, Tag::End),
        Stage::Closing => matches!(tag, Tag::Cipher | Tag::End),
        Stage::Over => false,
    }
}
