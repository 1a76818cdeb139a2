//! Addresses as they are written.
ghost use Rattle.std.specs.Prelude.{◌≡◌};
ghost use Rattle.rv_asm.specs.Words.{magnitude};

/// The address that a text writes as the assembler takes numbers: decimal, or hexadecimal after `0x`.
pub fn address_of(text: &str) -> Option<u32>
    ensures { result ≡ magnitude text.now }
{
    rv_asm::magnitude(text.as_bytes())
}
