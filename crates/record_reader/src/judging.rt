//! What stands at the front of some bytes: an item of a tag, the end of a record, or what is wrong there.
ghost use Rattle.std.specs.Prelude.{◌≡◌, ◌≤◌, ◌<◌, ℕ, IfOk, IfSome, length, slice_index};
ghost use Rattle.cloak_model.specs.RecordFault as spec;
ghost use Rattle.cloak_model.specs.Fields.{number as fields_number};
ghost use Rattle.cloak_model.specs.Items.{item_of};
ghost use Rattle.record_law.specs.Items as items;
ghost use Rattle.record_reader.specs.Reading.{judged};

use crate::fields::{has_bad_width, number};
use crate::tags::{may_stand, size_of, tag_of};
use cloak_model::{Item, RecordFault, Stage, Tag, Wrong};

/// Step numbers rise by one from 1, and Close names the last of them.
fn is_numbered(stage: Stage, tag: Tag, fields: &[u8]) -> bool
    requires { items.size_of tag ≤ length fields.now }
    ensures { result ≡ items.is_numbered stage tag (fields_number fields.now 0) }
{
    let last = match stage {
        Stage::Steps(number) => number,
        _ => 0,
    };
    match tag {
        Tag::Step => number(fields, 0) as u64 == last as u64 + 1,
        Tag::Close => number(fields, 0) == last,
        _ => true,
    }
}

/// What came before the items after this one.
pub fn stage_after(stage: Stage, item: &Item<'_>) -> Stage
    ensures { result ≡ spec.stage_after stage (item_of item.now) }
{
    match *item {
        Item::Step { number } => Stage::Steps(number),
        Item::Close { .. } => Stage::Closing,
        Item::End => Stage::Over,
        _ => stage,
    }
}

/// What is wrong with the fields after a tag, as far as there are any.
fn wrong_item(stage: Stage, tag: Option<Tag>, fields: &[u8]) -> Option<Wrong>
    ensures { result ≡ spec.wrong_item stage tag fields.now }
{
    let Some(tag) = tag else {
        return Some(Wrong::NoTag);
    };
    if !may_stand(stage, tag) || has_bad_width(tag, fields) {
        return Some(Wrong::NoTag);
    }
    if fields.len() < size_of(tag) {
        return Some(Wrong::Cut);
    }
    if !is_numbered(stage, tag, fields) {
        return Some(Wrong::NoNumber);
    }
    None
}

fn is_over(stage: Stage) -> bool
    ensures { result ≡ spec.is_over stage }
{
    matches!(stage, Stage::Over)
}

/// The tag of the item at the front of the bytes that there are; none at the end of a record.
pub fn judge(stage: Stage, bytes: &[u8]) -> Result<Option<Tag>, Wrong>
    ensures judged { result ≡ judged stage bytes.now }
    ensures whole { IfOk result (λ found. IfSome found (λ t. items.size_of t < length bytes.now)) }
    ensures each { (i : ℕ) → slice_index bytes.now i < 256 }
{
    if is_over(stage) {
        return if bytes.is_empty() {
            Ok(None)
        } else {
            Err(Wrong::More)
        };
    }
    if bytes.is_empty() {
        return Err(Wrong::Cut);
    }
    let tag = tag_of(bytes[0]);
    match wrong_item(stage, tag, &bytes[1..]) {
        None => Ok(tag),
        Some(wrong) => Err(wrong),
    }
}

/// The fault at the offset of an item, in a file of this size.
pub fn fault_of(size: u64, at: u64, wrong: Wrong) -> RecordFault
    ensures { result ≡ spec.fault_of size at wrong }
{
    match wrong {
        Wrong::Cut => RecordFault::Short(size),
        Wrong::NoTag => RecordFault::BadTag(at),
        Wrong::NoNumber => RecordFault::StepOrder(at),
        Wrong::More => RecordFault::Extra(at),
    }
}
