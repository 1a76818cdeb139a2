//! The words of a line, and the registers, numbers and names that operands are made of.

ghost use Rattle.std.specs.Prelude.{◌≡◌, ◌==◌, ◌<◌, ◌^◌, ◌*◌, ◌+◌, ◌≤◌, length, IfSome};
ghost use Rattle.std.specs.List.{prefix_len, position_or_len, position, list_all, before_first, after_first};
ghost use Rattle.rv_asm.specs.Words.{FindsAs, cut, from_word, leading_word, sole_word, register_named, digit, digits};
ghost use Rattle.rv_asm.specs.Words.{narrow, value, magnitude, numeral, is_name, is_blank, is_digit, is_name_byte};

/// A number as it is written.
#[derive(Clone, Copy)]
pub struct Numeral {
    pub negative: bool,
    pub magnitude: u32,
}

fn is_blank(b: u8) -> bool
    ensures { result ≡ is_blank b }
{
    b == b' ' || b == b'\t'
}

fn first_at(text: &[u8], c: u8) -> Option<usize>
    ensures at { result ≡ position (λ b. b == c) text.now }
    ensures within { IfSome result (λ i. i < length text.now) }
{
    text.iter().position(|b| *b == c)
}

/// What stands before and after the first byte `c`.
#[tactic(auto, unfolding(crate::specs::Words::cut))]
pub fn cut(text: &[u8], c: u8) -> Option<(&[u8], &[u8])>
    ensures { FindsAs (λ x. (x.0.now, x.1.now)) result (cut c text.now) }
{
    let at = first_at(text, c)?;
    Some((&text[..at], &text[at + 1..]))
}

fn blanks(text: &[u8]) -> usize
    ensures value { result ≡ prefix_len is_blank text.now }
    ensures within { result ≤ length text.now }
{
    text.iter().take_while(|b| is_blank(**b)).count()
}

#[tactic(auto, unfolding(crate::specs::Words::from_word))]
fn from_word(text: &[u8]) -> &[u8]
    ensures { result.now ≡ from_word text.now }
{
    &text[blanks(text)..]
}

fn word_len(text: &[u8]) -> usize
    ensures { result ≡ position_or_len is_blank text.now }
{
    text.iter().take_while(|b| !is_blank(**b)).count()
}

/// The first word, empty if there is none, and what stands after it.
#[tactic(auto, unfolding(crate::specs::Words::leading_word))]
pub fn first_word(text: &[u8]) -> (&[u8], &[u8])
    ensures word { result.0.now ≡ (leading_word text.now).0 }
    ensures behind { result.1.now ≡ (leading_word text.now).1 }
{
    let text = from_word(text);
    let end = word_len(text);
    if end < text.len() {
        (&text[..end], &text[end + 1..])
    } else {
        (text, &[])
    }
}

pub fn is_all_blank(text: &[u8]) -> bool
    ensures { result ≡ list_all is_blank text.now }
{
    text.iter().all(|b| is_blank(*b))
}

fn is_byte(b: u8, c: u8) -> bool
    ensures { result ≡ (b == c) }
{
    b == c
}

fn len_before(text: &[u8], c: u8) -> usize
    ensures value { result ≡ position_or_len (λ b. b == c) text.now }
    ensures within { result ≤ length text.now }
{
    text.iter().take_while(|b| !is_byte(**b, c)).count()
}

/// What stands before the first byte `c`, or all.
pub fn before(text: &[u8], c: u8) -> &[u8]
    ensures { result.now ≡ before_first (λ b. b == c) text.now }
{
    &text[..len_before(text, c)]
}

/// What stands after the first byte `c`, or nothing.
pub fn behind(text: &[u8], c: u8) -> &[u8]
    ensures { result.now ≡ after_first (λ b. b == c) text.now }
{
    let end = len_before(text, c);
    if end < text.len() {
        &text[end + 1..]
    } else {
        &[]
    }
}

/// The one word of a text that has no other.
#[tactic(auto, unfolding(crate::specs::Words::sole_word))]
pub fn sole_word(text: &[u8]) -> Option<&[u8]>
    ensures { FindsAs (λ x. x.now) result (sole_word text.now) }
{
    let (word, behind) = first_word(text);
    if is_all_blank(behind) {
        Some(word)
    } else {
        None
    }
}

#[tactic(auto, unfolding(crate::specs::Words::register_named))]
pub fn register(word: &[u8]) -> Option<u32>
    ensures value { result ≡ register_named word.now }
    ensures range { IfSome result (λ r. r < 32) }
{
    match word {
        [b'x', d @ b'0'..=b'9'] => Some(u32::from(*d - b'0')),
        [b'x', d @ b'1'..=b'3', e @ b'0'..=b'9'] => {
            let r = 10 * u32::from(*d - b'0') + u32::from(*e - b'0');
            if r < 32 { Some(r) } else { None }
        }
        _ => None,
    }
}

#[tactic(auto, unfolding(crate::specs::Words::digit))]
fn digit(base: u32, b: u8) -> Option<u32>
    ensures value { result ≡ digit base b }
    ensures range { IfSome result (λ d. d < 16) }
{
    if b.is_ascii_digit() {
        Some(u32::from(b - b'0'))
    } else if base == 16 && b'a' <= b && b <= b'f' {
        Some(u32::from(b - b'a') + 10)
    } else if base == 16 && b'A' <= b && b <= b'F' {
        Some(u32::from(b - b'A') + 10)
    } else {
        None
    }
}

#[tactic(auto, unfolding(crate::specs::Words::value))]
fn value(base: u32, text: &[u8]) -> Option<u32>
    requires some { 0 < base }
    requires few { base ≤ 16 }
    ensures { result ≡ value base text.now }
{
    if text.is_empty() {
        return None;
    }
    let mut n = 0u64;
    for b in text {
        let d = digit(base, *b)?;
        n = u64::from(base) * n + u64::from(d);
        if n >= 1 << 32 {
            return None;
        }
    }
    Some(n as u32)
}

/// The number that a text writes: decimal, or hexadecimal after `0x`.
#[tactic(auto, unfolding(crate::specs::Words::magnitude))]
pub fn magnitude(text: &[u8]) -> Option<u32>
    ensures { result ≡ magnitude text.now }
{
    match text {
        [b'0', b'x', digits @ ..] => value(16, digits),
        _ => value(10, text),
    }
}

#[tactic(auto, unfolding(crate::specs::Words::numeral))]
pub fn number(word: &[u8]) -> Option<Numeral>
    ensures { result ≡ numeral word.now }
{
    match word {
        [] => None,
        [b'-', digits @ ..] => Some(Numeral {
            negative: true,
            magnitude: magnitude(digits)?,
        }),
        [_, ..] => Some(Numeral {
            negative: false,
            magnitude: magnitude(word)?,
        }),
    }
}

fn is_name_byte(b: u8) -> bool
    ensures { result ≡ is_name_byte b }
{
    b.is_ascii_digit() || b.is_ascii_lowercase() || b.is_ascii_uppercase() || b == b'_'
}

fn has_name_bytes(word: &[u8]) -> bool
    ensures { result ≡ list_all is_name_byte word.now }
{
    word.iter().all(|b| is_name_byte(*b))
}

/// Whether a label may be called so.
#[tactic(auto, unfolding(crate::specs::Words::is_name))]
pub fn is_name(word: &[u8]) -> bool
    ensures { result ≡ is_name word.now }
{
    match word {
        [] => false,
        [first, ..] => !first.is_ascii_digit() && has_name_bytes(word),
    }
}
