ghost use Rattle.std.specs.Prelude.{◌≡◌, ◌≤◌, ◌<◌, ◌+◌, ◌*◌, ◌%◌, ◌^◌, true, false, Some, None, MatchOption};
ghost use Rattle.std.specs.Prelude.{length, take, drop};
ghost use Rattle.std.specs.Int.{w32, to_le_bytes};
ghost use Rattle.rand_core.specs.Steps.{word_bytes};
ghost use Rattle.rand_chacha.specs.ChaCha.{next_word};
ghost use Rattle.cloak_base.specs.Random.{handed, numbered, next_draw};

use rand_chacha::ChaCha20Rng;
use rand_core::SeedableRng;
use rand_core::utils::NextWord;
use std::marker::Model;

#[derive(Drop)]
enum Source {
    Handed { bytes: Vec<u8>, at: usize },
    Numbered(ChaCha20Rng),
}

/// Random bytes, drawn sixteen at a time.
#[derive(Drop)]
pub struct Stream {
    source: Source,
}

impl Model for Stream {
    ghost use Rattle.cloak_base.specs.Random.{Random};

    ghost Value = { Random };

    ghost use Rattle.io_traits.specs.Source.{random_of, IsInside};

    ghost view = { λ s. random_of s.source };

    ghost invariant = { λ s. IsInside s.source };
}

fn draw_handed(bytes: &[u8], at: &mut usize) -> Option<[u8; 16]>
    requires { at.old ≤ length bytes.now }
    ensures inside { at.new ≤ length bytes.now }
    ensures value { MatchOption result
        ((length (drop at.old bytes.now) < 16) × (at.new ≡ at.old))
        (λ iv. (16 ≤ length (drop at.old bytes.now)) × (iv ≡ take 16 (drop at.old bytes.now))
        × (at.new ≡ at.old + 16)) }
{
    let left = &bytes[*at..];
    if left.len() < 16 {
        return None;
    }
    let mut iv = [0; 16];
    iv.copy_from_slice(&left[..16]);
    *at += 16;
    Some(iv)
}

fn skip_handed(bytes: &[u8], at: &mut usize, draws: u64) -> bool
    requires { at.old ≤ length bytes.now }
    ensures inside { at.new ≤ length bytes.now }
    ensures enough { result ≡ true → (16 * draws ≤ length (drop at.old bytes.now)) × (at.new ≡ at.old + 16 * draws) }
    ensures too_few { result ≡ false → (length (drop at.old bytes.now) < 16 * draws) × (at.new ≡ at.old) }
{
    let left = bytes[*at..].len() / 16;
    if draws > left as u64 {
        return false;
    }
    *at += 16 * draws as usize;
    true
}

fn draw_words(rng: &mut ChaCha20Rng) -> [u8; 16]
    ensures { (result, rng.new) ≡ word_bytes (to_le_bytes w32) (next_word 10) 4 rng.old }
{
    let a = rng.next_word().to_le_bytes();
    let b = rng.next_word().to_le_bytes();
    let c = rng.next_word().to_le_bytes();
    let d = rng.next_word().to_le_bytes();
    [
        a[0], a[1], a[2], a[3], b[0], b[1], b[2], b[3], c[0], c[1], c[2], c[3], d[0], d[1], d[2],
        d[3],
    ]
}

/// Moves the generator on by four words a draw. Its place is set, so any number of draws takes the same time.
fn skip_words(rng: &mut ChaCha20Rng, draws: u64)
    ensures inside { rng.old.word_pos < 2 ^ 68 }
    ensures moved { rng.new ≡ record rng.old { word_pos = (rng.old.word_pos + 4 * draws) % 2 ^ 68 } }
{
    let place = rng.get_word_pos();
    rng.set_word_pos(place + 4 * u128::from(draws));
}

impl Stream {
    ghost use Rattle.io_traits.specs.Source.{left_of};
    ghost use Rattle.io_traits.specs.Skipping.{skipped};

    /// The bytes that are handed in, from the first on.
    pub fn bytes(b: Vec<u8>) -> Stream
        ensures { result ≡ handed b.items }
    {
        Stream {
            source: Source::Handed { bytes: b, at: 0 },
        }
    }

    /// The stream of a number, which has no end.
    pub fn numbered(n: u64) -> Stream
        ensures { result ≡ numbered n }
    {
        let mut seed = [0; 32];
        seed[..8].copy_from_slice(&n.to_le_bytes());
        Stream {
            source: Source::Numbered(ChaCha20Rng::from_seed(seed)),
        }
    }

    /// The next 16 bytes. None, and nothing is drawn, if fewer are left.
    pub fn draw(&mut self) -> Option<[u8; 16]>
        ensures { MatchOption result
            ((next_draw self.old ≡ None) × (self.new ≡ self.old))
            (λ iv. next_draw self.old ≡ Some (iv, self.new)) }
    {
        match &mut self.source {
            Source::Handed { bytes, at } => draw_handed(bytes, at),
            Source::Numbered(rng) => Some(draw_words(rng)),
        }
    }

    /// Leaves out this many draws, in the same time for any number. False, and nothing is left out, if fewer are left.
    pub fn skip(&mut self, draws: u64) -> bool
        ensures enough { result ≡ true → skipped draws self.old ≡ Some self.new }
        ensures too_few { result ≡ false → (skipped draws self.old ≡ None) × (self.new ≡ self.old) }
    {
        match &mut self.source {
            Source::Handed { bytes, at } => skip_handed(bytes, at, draws),
            Source::Numbered(rng) => {
                skip_words(rng, draws);
                true
            }
        }
    }

    /// How many bytes are left. None if the stream has no end.
    pub fn left(&self) -> Option<u64>
        ensures { result ≡ left_of self.now }
    {
        match &self.source {
            Source::Handed { bytes, at } => Some((bytes.len() - *at) as u64),
            Source::Numbered(_) => None,
        }
    }
}
