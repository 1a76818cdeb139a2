//! Characters as they stand in XML.
ghost use Rattle.std.specs.Prelude.{◌≡◌, ◌++◌, OnOk};
ghost use Rattle.svg_text.specs.Characters as spec;

use std::alloc::AllocError;

/// The character shows something in XML.
fn is_sign(c: u32) -> bool
    ensures { result ≡ spec.is_sign c }
{
    (32 <= c && c <= 126)
        || ((160 <= c && c <= 55295)
            || ((57344 <= c && c <= 65533) || (65536 <= c && c <= 1114111)))
}

/// What is written for a character.
fn sign_of(c: u32) -> u32
    ensures { result ≡ spec.sign_of c }
{
    if is_sign(c) { c } else { 65533 }
}

/// Puts a character by its number.
fn put_reference(text: &mut Vec<u8>, c: u32) -> Result<(), AllocError>
    ensures { OnOk result (text.new.items ≡ text.old.items ++ spec.reference c) }
{
    let mut digits = itoa::Buffer::new();
    text.extend_from_slice(b"&#")?;
    text.extend_from_slice(digits.format(c).as_bytes())?;
    text.extend_from_slice(b";")?;
    Ok(())
}

/// Puts a character.
#[tactic(auto, unfolding(crate::specs::Characters::escaped_sign))]
fn put_sign(text: &mut Vec<u8>, c: u32) -> Result<(), AllocError>
    ensures { OnOk result (text.new.items ≡ text.old.items ++ spec.escaped_sign c) }
{
    if c == 38 {
        text.extend_from_slice(b"&amp;")
    } else if c == 60 {
        text.extend_from_slice(b"&lt;")
    } else if c == 62 {
        text.extend_from_slice(b"&gt;")
    } else if c == 34 {
        text.extend_from_slice(b"&quot;")
    } else if 32 <= c && c <= 126 {
        text.extend_from_slice(&[c as u8])
    } else {
        put_reference(text, sign_of(c))
    }
}

/// Puts characters.
pub fn put_signs(text: &mut Vec<u8>, signs: &[u32]) -> Result<(), AllocError>
    ensures { OnOk result (text.new.items ≡ text.old.items ++ spec.escaped signs.now) }
{
    for c in signs {
        put_sign(text, *c)?;
    }
    Ok(())
}
