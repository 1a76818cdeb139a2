ghost use Rattle.std.specs.Prelude.{◌≡◌, ◌<◌, ◌++◌, ℕ, List, None};
ghost use Rattle.std.specs.List.{concat};
ghost use Rattle.sha2.specs.Hashers.{Holds256};
ghost use Rattle.sha2.specs.Sha256.{sha256};
ghost use Rattle.cloak_model.specs.Cloaking.{CloakedMemory};
ghost use Rattle.cloak_pager.specs.State.{bytes_in, held_in};
ghost use Rattle.cloak_pager.specs.Turns.{IsReadOnce};
ghost use Rattle.cloaked_side.specs.Holding.{Holds, frames_of};

use cloak_base::Frame;
use cloaked_side::Memory;
use sha2::{Digest, Sha256};

/// Hashes a frame that is as the kernel sees it.
fn hash_frame(memory: &mut Memory, f: Frame, hasher: &mut Sha256)
    requires inside { f.0 < frames_of memory.old }
    requires outside { held_in memory.old.pager f.0 ≡ None }
    ensures read { IsReadOnce memory.old.pager memory.new.pager }
    ensures hashed { (m : List ℕ) → Holds256 hasher.old m →
        Holds256 hasher.new (m ++ bytes_in memory.old.pager f.0) }
{
    hasher.update(memory.pager.read_outside(f).as_slice());
}

/// The digest of all frames in order, once each is as the kernel sees it.
pub fn digest_of(memory: &mut Memory) -> [u8; 32]
    requires { (k : ℕ) → held_in memory.old.pager k ≡ None }
    ensures { (m : CloakedMemory) → Holds memory.old m → result ≡ sha256 (concat m.ram) }
{
    let mut hasher = Sha256::new();
    for f in 0..memory.pager.count() {
        hash_frame(memory, Frame(f), &mut hasher);
    }
    hasher.finalize()
}
