//! The fields of an item, after its tag.
ghost use Rattle.std.specs.Prelude.{◌≡◌, ◌+◌, ◌≤◌, length, take, drop};
ghost use Rattle.cloak_model.specs.Fields as spec;
ghost use Rattle.cloak_model.specs.Items.{item_of};
ghost use Rattle.record_law.specs.Items as items;

use cloak_base::Shown;
use cloak_model::{Item, Tag};

/// Four bytes as a number, the lowest first.
pub fn number(fields: &[u8], at: usize) -> u32
    requires { at + 4 ≤ length fields.now }
    ensures { result ≡ spec.number fields.now at }
{
    u32::from_le_bytes([fields[at], fields[at + 1], fields[at + 2], fields[at + 3]])
}

fn shown(fields: &[u8]) -> Shown
    requires { 40 ≤ length fields.now }
    ensures { result ≡ items.shown_in fields.now }
{
    Shown {
        cause: number(fields, 0),
        stval: number(fields, 4),
        ctx: number(fields, 8),
        number: number(fields, 12),
        args: [
            number(fields, 16),
            number(fields, 20),
            number(fields, 24),
            number(fields, 28),
            number(fields, 32),
            number(fields, 36),
        ],
    }
}

/// The item of a tag and its fields. A page is copied into the room, and lent from there.
#[tactic(auto, unfolding(record_law::specs::Items::item_in))]
pub fn item_in<'p>(tag: Tag, fields: &[u8], room: &'p mut [u8; 4096]) -> Item<'p>
    requires { items.size_of tag ≤ length fields.now }
    ensures { item_of result ≡ items.item_in tag fields.now }
{
    match tag {
        Tag::Cipher => {
            room.copy_from_slice(&fields[4..4100]);
            Item::Cipher {
                frame: number(fields, 0),
                bytes: room,
            }
        }
        Tag::Put => Item::Put {
            address: number(fields, 0),
            width: fields[4],
            value: number(fields, 5),
        },
        Tag::Leave => Item::Leave(shown(fields)),
        Tag::Step => Item::Step {
            number: number(fields, 0),
        },
        Tag::Close => Item::Close {
            steps: number(fields, 0),
        },
        Tag::End => Item::End,
        Tag::Ok => Item::Ok { domain: fields[0] },
        Tag::Absent => Item::Absent {
            domain: fields[0],
            cause: number(fields, 1),
        },
        Tag::Word => Item::Word {
            domain: fields[0],
            value: number(fields, 1),
        },
        Tag::Timer => Item::Timer { domain: fields[0] },
        Tag::Resume => Item::Resume {
            domain: fields[0],
            ctx: number(fields, 1),
            answer: number(fields, 5),
        },
        Tag::Stopped => Item::Stopped { domain: fields[0] },
        Tag::Ended => Item::Ended { domain: fields[0] },
    }
}

/// The width of a Put is there, and is none.
pub fn has_bad_width(tag: Tag, fields: &[u8]) -> bool
    ensures { result ≡ items.has_bad_width tag fields.now }
{
    matches!(tag, Tag::Put) && fields.len() > 4 && !matches!(fields[4], 1 | 2 | 4)
}
