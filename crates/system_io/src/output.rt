//! What takes bytes at its end.
ghost use Rattle.std.specs.Prelude.{◌≡◌, ◌≤◌, ℕ, List, Option, None, length, take, IfOk, OnErr};
ghost use Rattle.std.specs.Io.KnownBytes.{append_known};

use cloak_base::Failed;

/// Takes bytes at its end. An output that tells its bytes tells them after each call, and one that tells none tells none
/// later. (Of std's `Write` the second is not known.)
pub trait Output {
    /// The bytes that were written so far, if the output tells them.
    ghost shown: { Self → Option (List ℕ) };

    /// Writes a front of the piece, and returns its length. One that failed has written nothing.
    fn write(&mut self, piece: &[u8]) -> Result<usize, Failed>
        ensures count { IfOk result (λ n. n ≤ length piece.now) }
        ensures ok { IfOk result (λ n. shown self.new ≡ append_known (shown self.old) (take n piece.now)) }
        ensures err { OnErr result (shown self.new ≡ shown self.old) };
}

/// Writes until the whole piece is written, a write fails, or one takes no bytes. Returns how many bytes were written.
pub fn write_front<O: Output>(out: &mut O, piece: &[u8]) -> usize
    ensures count { result ≤ length piece.now }
    ensures told { O.shown out.new ≡ append_known (O.shown out.old) (take result piece.now) }
{
    let mut n = 0;
    while n < piece.len() {
        match out.write(&piece[n..]) {
            Ok(more) if more > 0 => n += more,
            _ => break,
        }
    }
    n
}

/// What prints, as an output. It tells no bytes, so nothing is proved of what it shows: that a call of the system
/// writes what it returns is trusted.
#[derive(Drop)]
pub struct SystemConsole<P: Print + Drop> {
    print: P,
}

impl<P: Print + Drop> SystemConsole<P> {
    pub fn new(print: P) -> SystemConsole<P> {
        SystemConsole { print }
    }
}

impl<P: Print + Drop> Output for SystemConsole<P> {
    ghost shown = { λ _. None };

    fn write(&mut self, piece: &[u8]) -> Result<usize, Failed> {
        self.print.write_some(piece).map_err(|_| Failed)
    }
}
