//! The steps of a round and of an inverse round on the four columns of a state, each a word of 32 bits whose lowest
//! byte is the column's first, by tables of words; and the next round key.

ghost use Rattle.std.specs.Prelude.{◌≡◌, ◌+◌, ◌/◌, ◌%◌, ◌<◌, ◌++◌};
ghost use Rattle.aes_block.specs.Column.{column_bytes, column_sum, mixed};
ghost use Rattle.aes_block.specs.State.{sub_bytes, shift_rows, mix_columns, block_sum};
ghost use Rattle.aes_block.specs.RoundKey.{rotated_word, substituted_word, next_key};
ghost use Rattle.aes_block.specs.Word.{column_of_word, block_of_words, gathered};

use crate::tables::{INVERSE_ROUND, INVERSE_SUBSTITUTED, ROUND, ROUND_CONSTANTS, SUBSTITUTED};

fn byte_0(w: u32) -> usize
    ensures { result ≡ w % 256 }
{
    (w & 0xff) as usize
}

fn byte_1(w: u32) -> usize
    ensures { result ≡ w / 256 % 256 }
{
    ((w >> 8) & 0xff) as usize
}

fn byte_2(w: u32) -> usize
    ensures { result ≡ w / 65536 % 256 }
{
    ((w >> 16) & 0xff) as usize
}

fn byte_3(w: u32) -> usize
    ensures { result ≡ w / 16777216 % 256 }
{
    (w >> 24) as usize
}

/// All four steps of a round for one column, which starts in `w`.
// The key is added in the middle of the sum: added last, LLVM would keep the state in one vector and take it apart for
// each look-up.
#[inline(always)]
fn mixed_word(w: u32, x: u32, y: u32, z: u32, k: u32) -> u32
    ensures { column_of_word result ≡ column_sum (mixed (substituted_word (gathered w x y z))) (column_of_word k) }
{
    ((ROUND[0][byte_0(w)] ^ k) ^ ROUND[1][byte_1(x)]) ^ (ROUND[2][byte_2(y)] ^ ROUND[3][byte_3(z)])
}

/// The same of a round that mixes no columns.
#[inline(always)]
fn substituted_word(w: u32, x: u32, y: u32, z: u32, k: u32) -> u32
    ensures { column_of_word result ≡ column_sum (substituted_word (gathered w x y z)) (column_of_word k) }
{
    ((SUBSTITUTED[0][byte_0(w)] ^ k) ^ SUBSTITUTED[1][byte_1(x)])
        ^ (SUBSTITUTED[2][byte_2(y)] ^ SUBSTITUTED[3][byte_3(z)])
}

/// What becomes a column, which starts in `w`, by the key's addition and by mixing and substituting.
#[inline(always)]
fn unmixed_word(w: u32, x: u32, y: u32, z: u32, k: u32) -> u32
    ensures { substituted_word (mixed (column_sum (column_of_word result) (column_of_word k))) ≡ gathered w x y z }
{
    ((INVERSE_ROUND[0][byte_0(w)] ^ k) ^ INVERSE_ROUND[1][byte_1(x)])
        ^ (INVERSE_ROUND[2][byte_2(y)] ^ INVERSE_ROUND[3][byte_3(z)])
}

/// The same of a round that mixes no columns.
#[inline(always)]
fn unsubstituted_word(w: u32, x: u32, y: u32, z: u32, k: u32) -> u32
    ensures { substituted_word (column_sum (column_of_word result) (column_of_word k)) ≡ gathered w x y z }
{
    ((INVERSE_SUBSTITUTED[0][byte_0(w)] ^ k) ^ INVERSE_SUBSTITUTED[1][byte_1(x)])
        ^ (INVERSE_SUBSTITUTED[2][byte_2(y)] ^ INVERSE_SUBSTITUTED[3][byte_3(z)])
}

/// A round with all four steps.
#[inline(always)]
pub fn round(s: &mut [u32; 4], k: &[u32; 4])
    ensures { let mixes = mix_columns (shift_rows (sub_bytes (block_of_words s.old))) in
        block_of_words s.new ≡ block_sum mixes (block_of_words k.now) }
{
    let [w, x, y, z] = *s;
    *s = [
        mixed_word(w, x, y, z, k[0]),
        mixed_word(x, y, z, w, k[1]),
        mixed_word(y, z, w, x, k[2]),
        mixed_word(z, w, x, y, k[3]),
    ];
}

/// A round that mixes no columns.
#[inline(always)]
pub fn last_round(s: &mut [u32; 4], k: &[u32; 4])
    ensures { block_of_words s.new ≡ block_sum (shift_rows (sub_bytes (block_of_words s.old))) (block_of_words k.now) }
{
    let [w, x, y, z] = *s;
    *s = [
        substituted_word(w, x, y, z, k[0]),
        substituted_word(x, y, z, w, k[1]),
        substituted_word(y, z, w, x, k[2]),
        substituted_word(z, w, x, y, k[3]),
    ];
}

/// A round undone; the key is added after the columns are unmixed, so it is an unmixed one (FIPS 197, 5.3.5).
#[inline(always)]
pub fn inverse_round(s: &mut [u32; 4], k: &[u32; 4])
    ensures { let mixes = mix_columns (block_sum (block_of_words s.new) (block_of_words k.now)) in
        shift_rows (sub_bytes mixes) ≡ block_of_words s.old }
{
    let [w, x, y, z] = *s;
    *s = [
        unmixed_word(w, z, y, x, k[0]),
        unmixed_word(x, w, z, y, k[1]),
        unmixed_word(y, x, w, z, k[2]),
        unmixed_word(z, y, x, w, k[3]),
    ];
}

/// A round that mixes no columns, undone.
#[inline(always)]
pub fn last_inverse_round(s: &mut [u32; 4], k: &[u32; 4])
    ensures { shift_rows (sub_bytes (block_sum (block_of_words s.new) (block_of_words k.now))) ≡ block_of_words s.old }
{
    let [w, x, y, z] = *s;
    *s = [
        unsubstituted_word(w, z, y, x, k[0]),
        unsubstituted_word(x, w, z, y, k[1]),
        unsubstituted_word(y, x, w, z, k[2]),
        unsubstituted_word(z, y, x, w, k[3]),
    ];
}

/// The sum with another block.
#[inline(always)]
pub fn add_words(s: &mut [u32; 4], other: &[u32; 4])
    ensures { block_of_words s.new ≡ block_sum (block_of_words s.old) (block_of_words other.now) }
{
    *s = [
        s[0] ^ other[0],
        s[1] ^ other[1],
        s[2] ^ other[2],
        s[3] ^ other[3],
    ];
}

fn low_word(n: u64) -> u32
    ensures { result ≡ n % 4294967296 }
{
    (n & 0xffff_ffff) as u32
}

fn high_word(n: u64) -> u32
    ensures { result ≡ n / 4294967296 }
{
    (n >> 32) as u32
}

/// The words of a block.
// Two at a time, so that LLVM keeps the words in registers of their own.
#[inline(always)]
pub fn words_of(b: &[u8; 16]) -> [u32; 4]
    ensures { block_of_words result ≡ b.now }
{
    let front = u64::from_le_bytes([b[0], b[1], b[2], b[3], b[4], b[5], b[6], b[7]]);
    let back = u64::from_le_bytes([b[8], b[9], b[10], b[11], b[12], b[13], b[14], b[15]]);
    [
        low_word(front),
        high_word(front),
        low_word(back),
        high_word(back),
    ]
}

#[inline(always)]
fn two_words(w: u32, x: u32) -> [u8; 8]
    ensures { result ≡ column_bytes (column_of_word w) ++ column_bytes (column_of_word x) }
{
    (u64::from(x) * 0x1_0000_0000 + u64::from(w)).to_le_bytes()
}

/// Writes a block from its words.
#[inline(always)]
pub fn write_words(s: &[u32; 4], b: &mut [u8; 16])
    ensures { b.new ≡ block_of_words s.now }
{
    let w = two_words(s[0], s[1]);
    let y = two_words(s[2], s[3]);
    *b = [
        w[0], w[1], w[2], w[3], w[4], w[5], w[6], w[7], y[0], y[1], y[2], y[3], y[4], y[5], y[6],
        y[7],
    ];
}

/// SubWord of RotWord.
fn key_word(w: u32) -> u32
    ensures { column_of_word result ≡ substituted_word (rotated_word (column_of_word w)) }
{
    (SUBSTITUTED[0][byte_1(w)] ^ SUBSTITUTED[1][byte_2(w)])
        ^ (SUBSTITUTED[2][byte_3(w)] ^ SUBSTITUTED[3][byte_0(w)])
}

/// The round key after round key `j`.
pub fn next_key(j: usize, k: &[u32; 4]) -> [u32; 4]
    requires { j < 10 }
    ensures { block_of_words result ≡ next_key (j + 1) (block_of_words k.now) }
{
    let w = k[0] ^ (key_word(k[3]) ^ ROUND_CONSTANTS[j]);
    let x = k[1] ^ w;
    let y = k[2] ^ x;
    let z = k[3] ^ y;
    [w, x, y, z]
}

/// What is mixed to this column.
fn unmixed_key_word(w: u32) -> u32
    ensures { mixed (column_of_word result) ≡ column_of_word w }
{
    let s = substituted_word(w, w, w, w, 0);
    unmixed_word(s, s, s, s, 0)
}

/// What is mixed to this round key.
pub fn unmixed_key(k: &[u32; 4]) -> [u32; 4]
    ensures { mix_columns (block_of_words result) ≡ block_of_words k.now }
{
    [
        unmixed_key_word(k[0]),
        unmixed_key_word(k[1]),
        unmixed_key_word(k[2]),
        unmixed_key_word(k[3]),
    ]
}
