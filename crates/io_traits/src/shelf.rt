ghost use Rattle.std.specs.Prelude.{◌≡◌, ◌≤◌, ◌⊎◌, ℕ, List, [], Option, length, IfOk, IfSome, OnOk, OnErr};
ghost use Rattle.io_traits.specs.Told.{Tells, Grows, GrowsByFront, Counts, CountsEither};
ghost use Rattle.io_traits.specs.Told.{SameFiles, OtherFiles, IsCopied, NamesFault};

use cloak_base::Failed;

/// Files by name. A name that is not there is read as an empty file, and `append` makes it; neither is a
/// fault. What was added may be gathered first: a reading call writes it out, and fails by a fault of writing if
/// that fails.
pub trait Shelf {
    /// The bytes of the file of a name, if the shelf tells them.
    ghost held: { Self → List ℕ → Option (List ℕ) };

    /// How often reading failed, up to 2^64 - 1.
    ghost reading_faults: { Self → ℕ };

    /// The name of the file of which reading failed last, if the shelf tells it.
    ghost unread: { Self → Option (List ℕ) };

    /// How often writing failed, up to 2^64 - 1.
    ghost writing_faults: { Self → ℕ };

    /// Nothing is gathered that is still to be written out.
    ghost is_settled: { Self → Type 0 };

    /// The file of this name is the one that was begun or appended to last, if that did not fail.
    ghost is_last: { Self → List ℕ → Type 0 };

    /// The number of the name's bytes.
    fn size(&mut self, name: &str) -> Result<u64, Failed>
        ensures size { IfOk result (λ n. IfSome (held self.old name.now) (λ bytes. n ≡ length bytes)) }
        ensures files { SameFiles (held self.old) (held self.new) }
        ensures counts { CountsEither (reading_faults self.old) (reading_faults self.new)
            (writing_faults self.old) (writing_faults self.new) result }
        ensures reading { is_settled self.old → Counts (reading_faults self.old) (reading_faults self.new) result }
        ensures unread { is_settled self.old → NamesFault (unread self.old) (unread self.new) name.now result }
        ensures writing { is_settled self.old → writing_faults self.new ≡ writing_faults self.old }
        ensures settled { is_settled self.old → is_settled self.new }
        ensures unsettled { ¬ is_settled self.new → reading_faults self.new ≡ reading_faults self.old };

    /// Copies bytes from `at` on to the front of `into`, and returns how many. The rest of `into` stays.
    /// After a failure the bytes of `into` may be any.
    fn read_at(&mut self, name: &str, at: u64, into: &mut [u8]) -> Result<usize, Failed>
        ensures count { IfOk result (λ n. n ≤ length into.old) }
        ensures copied { IfOk result (λ n.
            IfSome (held self.old name.now) (λ bytes. IsCopied bytes at n into.old into.new)) }
        ensures files { SameFiles (held self.old) (held self.new) }
        ensures counts { CountsEither (reading_faults self.old) (reading_faults self.new)
            (writing_faults self.old) (writing_faults self.new) result }
        ensures reading { is_settled self.old → Counts (reading_faults self.old) (reading_faults self.new) result }
        ensures unread { is_settled self.old → NamesFault (unread self.old) (unread self.new) name.now result }
        ensures writing { is_settled self.old → writing_faults self.new ≡ writing_faults self.old }
        ensures settled { is_settled self.old → is_settled self.new }
        ensures unsettled { ¬ is_settled self.new → reading_faults self.new ≡ reading_faults self.old };

    /// Empties the file of this name, or makes it.
    fn begin(&mut self, name: &str) -> Result<(), Failed>
        ensures emptied { OnOk result (Tells (held self.new name.now) []) }
        ensures err { OnErr result
            ((held self.new name.now ≡ held self.old name.now) ⊎ Tells (held self.new name.now) []) }
        ensures others { OtherFiles name.now (held self.old) (held self.new) }
        ensures last { OnOk result (is_last self.new name.now) }
        ensures writing { Counts (writing_faults self.old) (writing_faults self.new) result }
        ensures reading { reading_faults self.new ≡ reading_faults self.old }
        ensures unread { unread self.new ≡ unread self.old };

    /// Adds the whole piece at the end of the file of this name. One that failed has added a front of it.
    fn append(&mut self, name: &str, bytes: &[u8]) -> Result<(), Failed>
        ensures ok { OnOk result (Grows (held self.old name.now) (held self.new name.now) bytes.now) }
        ensures err { OnErr result (GrowsByFront (held self.old name.now) (held self.new name.now) bytes.now) }
        ensures others { OtherFiles name.now (held self.old) (held self.new) }
        ensures last { OnOk result (is_last self.new name.now) }
        ensures writing { Counts (writing_faults self.old) (writing_faults self.new) result }
        ensures reading { reading_faults self.new ≡ reading_faults self.old }
        ensures unread { unread self.new ≡ unread self.old };

    /// The same for the file that was begun or appended to last, whose name need not be looked at.
    fn append_last(&mut self, name: &str, bytes: &[u8]) -> Result<(), Failed>
        requires last { is_last self.old name.now }
        ensures ok { OnOk result (Grows (held self.old name.now) (held self.new name.now) bytes.now) }
        ensures err { OnErr result (GrowsByFront (held self.old name.now) (held self.new name.now) bytes.now) }
        ensures others { OtherFiles name.now (held self.old) (held self.new) }
        ensures last { OnOk result (is_last self.new name.now) }
        ensures writing { Counts (writing_faults self.old) (writing_faults self.new) result }
        ensures reading { reading_faults self.new ≡ reading_faults self.old }
        ensures unread { unread self.new ≡ unread self.old };

    /// Writes out what is gathered. Where that fails it stays gathered.
    fn flush(&mut self) -> Result<(), Failed>
        ensures settled { OnOk result (is_settled self.new) }
        ensures files { SameFiles (held self.old) (held self.new) }
        ensures last { (name : List ℕ) → is_last self.old name → is_last self.new name }
        ensures writing { Counts (writing_faults self.old) (writing_faults self.new) result }
        ensures reading { reading_faults self.new ≡ reading_faults self.old }
        ensures unread { unread self.new ≡ unread self.old };
}
