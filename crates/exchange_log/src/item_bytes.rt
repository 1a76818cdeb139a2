//! The bytes of items: a tag, and the fields, numbers with their lowest byte first.
ghost use Rattle.std.specs.Prelude.{◌≡◌, ◌≤◌, ◌+◌, ◌*◌, ◌++◌, length, take};
ghost use Rattle.std.specs.List.{flat_map};
ghost use Rattle.cloak_model.specs.Bits.{word};
ghost use Rattle.cloak_model.specs.Exchange.{item_bytes};
ghost use Rattle.cloak_model.specs.Items as item;
ghost use Rattle.cloak_model.specs.Items.{item_of};

use cloak_base::Shown;
use cloak_model::Item;

/// The most bytes of an item: a tag, a frame and its page.
pub const LONGEST: usize = 4101;

/// Writes these bytes after the first `at`, and returns where they end.
fn write_behind(into: &mut [u8; LONGEST], at: usize, bytes: &[u8]) -> usize
    requires { at + length bytes.now ≤ LONGEST }
    ensures end { result ≡ at + length bytes.now }
    ensures written { take result into.new ≡ take at into.old ++ bytes.now }
{
    let end = at + bytes.len();
    into[at..end].copy_from_slice(bytes);
    end
}

/// Writes these bytes to the front, and returns how many they are.
fn write_front(into: &mut [u8; LONGEST], bytes: &[u8]) -> usize
    requires { length bytes.now ≤ LONGEST }
    ensures count { result ≡ length bytes.now }
    ensures front { take result into.new ≡ bytes.now }
{
    write_behind(into, 0, bytes)
}

/// Writes the bytes of a Cipher, and returns how many they are.
#[tactic(auto, unfolding(cloak_model::specs::Exchange::item_bytes))]
fn write_cipher(frame: u32, bytes: &[u8; 4096], into: &mut [u8; LONGEST]) -> usize
    ensures few { result ≤ LONGEST }
    ensures front { take result into.new ≡ item_bytes (item.Cipher frame bytes.now) }
{
    let [a, b, c, d] = frame.to_le_bytes();
    let end = write_front(into, &[0x01, a, b, c, d]);
    write_behind(into, end, bytes)
}

/// Writes these words after the first `at` bytes, and returns where they end.
fn write_words(into: &mut [u8; LONGEST], at: usize, words: &[u32]) -> usize
    requires { at + 4 * length words.now ≤ LONGEST }
    ensures end { result ≡ at + 4 * length words.now }
    ensures written { take result into.new ≡ take at into.old ++ flat_map word words.now }
{
    let mut end = at;
    for word in words {
        end = write_behind(into, end, &word.to_le_bytes());
    }
    end
}

/// Writes the bytes of a Leave, and returns how many they are.
#[tactic(auto, unfolding(cloak_model::specs::Exchange::item_bytes))]
fn write_leave(s: &Shown, into: &mut [u8; LONGEST]) -> usize
    ensures few { result ≤ LONGEST }
    ensures front { take result into.new ≡ item_bytes (item.Leave s.now) }
{
    let end = write_front(into, &[0x03]);
    let end = write_words(into, end, &[s.cause, s.stval, s.ctx, s.number]);
    write_words(into, end, &s.args)
}

/// The bytes of a Step.
#[tactic(auto, unfolding(cloak_model::specs::Exchange::item_bytes))]
#[inline(always)]
pub fn step_bytes(number: u32) -> [u8; 5]
    ensures { result ≡ item_bytes (item.Step number) }
{
    let [a, b, c, d] = number.to_le_bytes();
    [0x10, a, b, c, d]
}

/// The bytes of an Ok.
#[tactic(auto, unfolding(cloak_model::specs::Exchange::item_bytes))]
#[inline(always)]
pub fn ok_bytes(domain: u8) -> [u8; 2]
    ensures { result ≡ item_bytes (item.Ok domain) }
{
    [0x20, domain]
}

/// The bytes of a Word.
#[tactic(auto, unfolding(cloak_model::specs::Exchange::item_bytes))]
#[inline(always)]
pub fn word_bytes(domain: u8, value: u32) -> [u8; 6]
    ensures { result ≡ item_bytes (item.Word domain value) }
{
    let [a, b, c, d] = value.to_le_bytes();
    [0x22, domain, a, b, c, d]
}

/// Writes the bytes of an item, and returns how many they are.
#[tactic(auto, unfolding(cloak_model::specs::Exchange::item_bytes))]
pub fn write_item(i: &Item<'_>, into: &mut [u8; LONGEST]) -> usize
    ensures few { result ≤ LONGEST }
    ensures front { take result into.new ≡ item_bytes (item_of i.now) }
{
    match i {
        Item::Cipher { frame, bytes } => write_cipher(*frame, bytes, into),
        Item::Put {
            address,
            width,
            value,
        } => {
            let [a, b, c, d] = address.to_le_bytes();
            let [e, f, g, h] = value.to_le_bytes();
            write_front(into, &[0x02, a, b, c, d, *width, e, f, g, h])
        }
        Item::Leave(s) => write_leave(s, into),
        Item::Step { number } => write_front(into, &step_bytes(*number)),
        Item::Close { steps } => {
            let [a, b, c, d] = steps.to_le_bytes();
            write_front(into, &[0x11, a, b, c, d])
        }
        Item::End => write_front(into, &[0x12]),
        Item::Ok { domain } => write_front(into, &ok_bytes(*domain)),
        Item::Absent { domain, cause } => {
            let [a, b, c, d] = cause.to_le_bytes();
            write_front(into, &[0x21, *domain, a, b, c, d])
        }
        Item::Word { domain, value } => write_front(into, &word_bytes(*domain, *value)),
        Item::Timer { domain } => write_front(into, &[0x23, *domain]),
        Item::Resume {
            domain,
            ctx,
            answer,
        } => {
            let [a, b, c, d] = ctx.to_le_bytes();
            let [e, f, g, h] = answer.to_le_bytes();
            write_front(into, &[0x24, *domain, a, b, c, d, e, f, g, h])
        }
        Item::Stopped { domain } => write_front(into, &[0x25, *domain]),
        Item::Ended { domain } => write_front(into, &[0x26, *domain]),
    }
}
