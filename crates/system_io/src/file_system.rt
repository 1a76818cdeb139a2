//! Files by name, as the system keeps them.
ghost use Rattle.std.specs.Prelude.{◌≡◌, ◌<◌, ◌≤◌, ◌+◌, ◌^◌, ℕ, List, [], Option, length, take};
ghost use Rattle.std.specs.Prelude.{IfOk, IfSome, IfNone, OnOk, OnErr, IsTrue, false};
ghost use Rattle.system_io.specs.Disks.{Extends};
ghost use Rattle.io_traits.specs.Told.{Tells, SameFiles, OtherFiles, IsCopied};

use cloak_base::Failed;

/// Files by name, whose bytes change only by these calls. A name that is not there has no bytes.
pub trait FileSystem {
    /// A file that is open.
    type File: Drop;

    /// The bytes of the file of a name, if the disk tells them.
    ghost told: { Self → List ℕ → Option (List ℕ) };

    /// The open file is the file of this name.
    ghost is_of: { Self.File → List ℕ → Type 0 };

    /// The next read of the open file begins at this place.
    ghost is_at: { Self.File → ℕ → Type 0 };

    /// The number of the name's bytes.
    fn size(&self, name: &str) -> Result<u64, Failed>
        ensures { IfOk result (λ n. IfSome (told self.now name.now) (λ all. n ≡ length all)) };

    /// Says whether no file has a byte at this place. All places from 2^63 on are such.
    fn is_past_all(&self, at: u64) -> bool
        ensures past { IsTrue result → (name : List ℕ) → IfSome (told self.now name) (λ all. length all ≤ at) }
        ensures near { result ≡ false → at < 2 ^ 63 };

    /// Opens a file to read it from its beginning. None if it is not there.
    fn open(&self, name: &str) -> Result<Option<Self::File>, Failed>
        ensures absent { IfOk result (λ opened. IfNone opened (Tells (told self.now name.now) [])) }
        ensures name { IfOk result (λ opened. IfSome opened (λ file. is_of file name.now)) }
        ensures fresh { IfOk result (λ opened. IfSome opened (λ file. is_at file 0)) };

    /// Moves an open file to a place, from which it is read next.
    fn seek(&self, file: &mut Self::File, at: u64) -> Result<(), Failed>
        ensures name { (name : List ℕ) → is_of file.old name → is_of file.new name }
        ensures moved { OnOk result (is_at file.new at) };

    /// Reads bytes of an open file to the front of `into`, and returns how many. After a failure the bytes of `into` may
    /// be any.
    fn read(&self, file: &mut Self::File, into: &mut [u8]) -> Result<usize, Failed>
        ensures count { IfOk result (λ n. n ≤ length into.old) }
        ensures name { (name : List ℕ) → is_of file.old name → is_of file.new name }
        ensures moved { IfOk result (λ n. (at : ℕ) → is_at file.old at → is_at file.new (at + n)) }
        ensures copied { IfOk result (λ n. (name : List ℕ) → is_of file.old name → (at : ℕ) → is_at file.old at →
            IfSome (told self.now name) (λ all. IsCopied all at n into.old into.new)) };

    /// Opens a file to write it at its end, and makes it if it is not there.
    fn open_end(&mut self, name: &str) -> Result<Self::File, Failed>
        ensures name { IfOk result (λ file. is_of file name.now) }
        ensures files { SameFiles (told self.old) (told self.new) };

    /// Empties a file, or makes it, and opens it to write it. One that failed has changed nothing.
    fn open_empty(&mut self, name: &str) -> Result<Self::File, Failed>
        ensures name { IfOk result (λ file. is_of file name.now) }
        ensures emptied { OnOk result (Tells (told self.new name.now) []) }
        ensures err { OnErr result (SameFiles (told self.old) (told self.new)) }
        ensures others { OtherFiles name.now (told self.old) (told self.new) };

    /// Writes a front of the piece at the end of an open file, and returns its length. One that failed has written
    /// nothing.
    fn write(&mut self, file: &mut Self::File, piece: &[u8]) -> Result<usize, Failed>
        ensures count { IfOk result (λ n. n ≤ length piece.now) }
        ensures name { (name : List ℕ) → is_of file.old name → is_of file.new name }
        ensures ok { IfOk result (λ n. (name : List ℕ) → is_of file.old name →
            Extends (told self.old) (told self.new) name (take n piece.now)) }
        ensures err { OnErr result (SameFiles (told self.old) (told self.new)) };

    /// Waits until what was written to an open file, and the file of this name itself, is on its medium. What has no
    /// medium, as a pipe, needs no waiting.
    fn sync(&self, file: &Self::File, name: &str) -> Result<(), Failed>;
}

/// Writes until the whole piece stands at the end of an open file, a write fails, or one takes no bytes. Returns how
/// many bytes were written.
pub fn write_front<D: FileSystem>(disk: &mut D, file: &mut D::File, piece: &[u8]) -> usize
    ensures count { result ≤ length piece.now }
    ensures name { (name : List ℕ) → D.is_of file.old name → D.is_of file.new name }
    ensures told { (name : List ℕ) → D.is_of file.old name →
        Extends (D.told disk.old) (D.told disk.new) name (take result piece.now) }
{
    let mut n = 0;
    while n < piece.len() {
        match disk.write(file, &piece[n..]) {
            Ok(more) if more > 0 => n += more,
            _ => break,
        }
    }
    n
}
