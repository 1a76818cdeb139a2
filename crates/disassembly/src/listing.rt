//! The text of words.
ghost use Rattle.std.specs.Prelude.{◌≡◌, ◌<◌, ◌+◌, ◌*◌, ◌≤◌, ◌++◌, ◌^◌, ◌||◌, ℕ, false, get_or, length, vec_len, codes, IfOk, OnOk};
ghost use Rattle.std.specs.List.{flat_map};
ghost use Rattle.disassembly.specs.Listing as spec;
ghost use Rattle.disassembly.specs.ReadingBack.{Fits};
ghost use Rattle.word_text.specs.Operands.{label};

use crate::lead::{Course, lead};
use cloak_base::NoMemory;
use std::alloc::Global;
use word_text::{label_text, number_text, word_text};

/// Notes where a word leads.
fn mark(marks: &mut Vec<bool>, lead: Course)
    ensures len { vec_len marks.new ≡ vec_len marks.old }
    ensures marks { (there : ℕ) → there < vec_len marks.old →
        get_or marks.new.items there false ≡ (spec.is_to there lead || get_or marks.old.items there false) }
{
    if let Course::To(there) = lead {
        if (there as usize) < marks.len() {
            marks[there as usize] = true;
        }
    }
}

/// Which words are led to.
fn labels(alloc: Global, words: &[u32]) -> Result<Vec<bool>, NoMemory>
    requires { length words.now ≤ 65536 }
    ensures len { IfOk result (λ marks. vec_len marks ≡ length words.now) }
    ensures marks { IfOk result (λ marks. (there : ℕ) → there < length words.now →
        get_or marks.items there false ≡ spec.is_led_to (length words.now) 0 words.now there) }
{
    let count = words.len() as u32;
    let mut marks = vec![in alloc; false; words.len()]?;
    let mut place = 0u32;
    for word in words {
        mark(&mut marks, lead(count, place, *word));
        place += 1;
    }
    Ok(marks)
}

/// The line of a label.
fn add_label(text: &mut Vec<u8>, at: u32) -> Result<(), NoMemory>
    ensures items { OnOk result (text.new.items ≡ text.old.items ++ spec.with_feed (label at ++ codes ":")) }
    ensures len { OnOk result (vec_len text.new ≤ vec_len text.old + 50) }
{
    text.extend_from_slice(label_text(at).as_slice())?;
    text.extend_from_slice(b":\n")?;
    Ok(())
}

/// The line of the label at a place, if it has one.
fn add_labels(text: &mut Vec<u8>, base: u32, place: u32, has_label: bool) -> Result<(), NoMemory>
    requires { base + 4 * place < 2 ^ 32 }
    ensures items { OnOk result (text.new.items
        ≡ text.old.items ++ flat_map spec.with_feed (spec.label_lines base place has_label)) }
    ensures len { OnOk result (vec_len text.new ≤ vec_len text.old + 50) }
{
    if has_label {
        add_label(text, base + 4 * place)
    } else {
        Ok(())
    }
}

/// The line of the word at a place.
fn add_word(
    text: &mut Vec<u8>,
    base: u32,
    count: u32,
    place: u32,
    word: u32,
) -> Result<(), NoMemory>
    requires few { count ≤ 65536 }
    requires inside { place < count }
    requires address { base + 4 * place < 2 ^ 32 }
    ensures items { OnOk result (text.new.items ≡ text.old.items
        ++ spec.with_feed (spec.word_line base count place word)) }
    ensures len { OnOk result (vec_len text.new ≤ vec_len text.old + 53) }
{
    let shown = match lead(count, place, word) {
        Course::Away => number_text(word),
        _ => word_text(word, base + 4 * place),
    };
    text.extend_from_slice(b"    ")?;
    text.extend_from_slice(shown.as_slice())?;
    text.extend_from_slice(b"\n")?;
    Ok(())
}

/// The text of words of which the first stands at an address.
#[tactic(auto, unfolding(crate::specs::Listing::listing))]
pub fn listing(alloc: Global, base: u32, words: &[u32]) -> Result<Vec<u8>, NoMemory>
    requires { Fits base words.now }
    ensures items { IfOk result (λ text. text.items ≡ spec.listing base words.now) }
    ensures len { IfOk result (λ text. vec_len text ≤ 103 * length words.now) }
{
    let marks = labels(alloc, words)?;
    let count = words.len() as u32;
    let mut text = Vec::new(alloc);
    let mut place = 0u32;
    for word in words {
        add_labels(&mut text, base, place, marks[place as usize])?;
        add_word(&mut text, base, count, place, *word)?;
        place += 1;
    }
    Ok(text)
}
