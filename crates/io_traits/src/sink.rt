ghost use Rattle.std.specs.Prelude.{◌≡◌, ◌<◌, ◌≤◌, ℕ, List, [], Option, length, take, IfOk, IsOk, OnOk, OnErr};
ghost use Rattle.io_traits.specs.Told.{Grows, GrowsByFront, Counts};

use cloak_base::Failed;

/// Takes bytes in order.
pub trait Sink {
    /// The bytes taken so far, if the sink tells them.
    ghost taken: { Self → Option (List ℕ) };

    /// How often a call failed, up to 2^64 - 1.
    ghost faults: { Self → ℕ };

    /// Nothing is gathered that is still to be shown.
    ghost is_settled: { Self → Type 0 };

    /// Takes a front of the piece and returns its length, which is above 0 for a piece that is not empty.
    /// One that failed has taken nothing.
    fn put(&mut self, bytes: &[u8]) -> Result<usize, Failed>
        ensures count { IfOk result (λ n. n ≤ length bytes.now) }
        ensures progress { IfOk result (λ n. 0 < length bytes.now → 0 < n) }
        ensures ok { IfOk result (λ n. Grows (taken self.old) (taken self.new) (take n bytes.now)) }
        ensures err { OnErr result (taken self.new ≡ taken self.old) }
        ensures faults { Counts (faults self.old) (faults self.new) result };

    /// Shows what was taken and is gathered. Where that fails it stays gathered.
    fn flush(&mut self) -> Result<(), Failed>
        ensures settled { OnOk result (is_settled self.new) }
        ensures same { taken self.new ≡ taken self.old }
        ensures faults { Counts (faults self.old) (faults self.new) result };
}

/// Puts until the whole piece is taken. One that failed has put a front of it. For no bytes there is no call.
pub fn put_all<O: Sink>(out: &mut O, bytes: &[u8]) -> Result<(), Failed>
    ensures ok { OnOk result (Grows (O.taken out.old) (O.taken out.new) bytes.now) }
    ensures err { OnErr result (GrowsByFront (O.taken out.old) (O.taken out.new) bytes.now) }
    ensures faults { Counts (O.faults out.old) (O.faults out.new) result }
    ensures empty { bytes.now ≡ [] → IsOk result × (out.new ≡ out.old) }
{
    let mut rest = bytes;
    while !rest.is_empty() {
        let n = out.put(rest)?;
        rest = &rest[n..];
    }
    Ok(())
}
