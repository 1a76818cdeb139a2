//! The numbers of an image: harts and programs, and what is drawn from the random stream of its number.
ghost use Rattle.std.specs.Prelude.{◌≡◌, ◌<◌};
ghost use Rattle.guest_kernel.specs.Drawing.{AreDrawn, hart_count, program_count, hart_of_turn, rounds_of};

use rand_chacha::ChaCha20Rng;
use rand_core::SeedableRng;
use rand_core::utils::NextWord;

/// As many words as an image draws at most: those of fifteen turns and of four programs.
pub const DRAWN: usize = 19;

/// How many harts the image of a number has.
pub fn harts(n: u64) -> u32
    ensures { result ≡ hart_count n }
{
    1 + (n % 4) as u32
}

/// How many programs the image of a number has.
pub fn programs(n: u64) -> u32
    ensures { result ≡ program_count n }
{
    1 + (n / 4 % 4) as u32
}

/// The first words of the stream of a number.
pub fn drawn_words(n: u64) -> [u32; DRAWN]
    ensures { AreDrawn n result }
{
    let mut seed = [0; 32];
    seed[..8].copy_from_slice(&n.to_le_bytes());
    let mut rng = ChaCha20Rng::from_seed(seed);
    let mut words = [0; DRAWN];
    for word in words.iter_mut() {
        *word = rng.next_word();
    }
    words
}

/// The hart of a turn, by the words that are drawn.
pub fn hart_of_turn(n: u64, words: &[u32; DRAWN], turn: usize) -> u8
    requires drawn { AreDrawn n words.now }
    requires turn { turn < 16 }
    ensures { result ≡ hart_of_turn n turn }
{
    let harts = harts(n);
    if turn < harts as usize {
        turn as u8
    } else {
        (words[turn - harts as usize] % harts) as u8
    }
}

/// The rounds of a program, by the words that are drawn.
pub fn rounds(n: u64, words: &[u32; DRAWN], program: u32) -> u32
    requires drawn { AreDrawn n words.now }
    requires program { program < 4 }
    ensures { result ≡ rounds_of n program }
{
    let word = words[(16 - harts(n) + program) as usize];
    16 + word % 48
}
