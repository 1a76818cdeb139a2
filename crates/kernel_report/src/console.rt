ghost use Rattle.std.specs.Prelude.{◌≡◌, ◌+◌, ◌<◌, ◌≤◌, ◌^◌, List, ℕ, [], ◌∷◌, ◌++◌};

use sha2::{Digest, Sha256};

/// How many bytes are hashed at a time.
const GATHERED: usize = 256;

/// The console so far: how many bytes it was shown, and their digest. They are gathered and hashed some at a time.
#[derive(Drop)]
pub struct Console {
    hasher: Sha256,
    /// The first `waiting` bytes are not hashed yet.
    gathered: [u8; GATHERED],
    waiting: usize,
    pub count: u64,
    ghost room: { waiting ≤ 256 },
}

impl Console {
    ghost use Rattle.sha2.specs.Sha256.{sha256};
    ghost use Rattle.kernel_report.specs.Console.{ConsoleShows};

    pub fn new() -> Console
        ensures count { result.count ≡ 0 }
        ensures shows { ConsoleShows result [] }
    {
        Console {
            hasher: Sha256::new(),
            gathered: [0; GATHERED],
            waiting: 0,
            count: 0,
        }
    }

    /// Makes room for a byte: if there is none, the bytes that wait are hashed.
    fn make_room(&mut self)
        ensures room { self.new.waiting < GATHERED }
        ensures count { self.new.count ≡ self.old.count }
        ensures shows { (bytes : List ℕ) → ConsoleShows self.old bytes → ConsoleShows self.new bytes }
    {
        if self.waiting < GATHERED {
            return;
        }
        self.hasher.update(&self.gathered);
        self.waiting = 0;
    }

    /// Takes one more byte.
    pub fn put(&mut self, b: u8)
        requires { self.old.count + 1 < 2 ^ 64 }
        ensures count { self.new.count ≡ self.old.count + 1 }
        ensures shows { (bytes : List ℕ) → ConsoleShows self.old bytes → ConsoleShows self.new (bytes ++ b ∷ []) }
    {
        self.make_room();
        self.gathered[self.waiting] = b;
        self.waiting += 1;
        self.count += 1;
    }

    /// The digest of all bytes.
    pub fn digest(self) -> [u8; 32]
        ensures { (bytes : List ℕ) → ConsoleShows self bytes → result ≡ sha256 bytes }
    {
        let Console {
            mut hasher,
            gathered,
            waiting,
            ..
        } = self;
        hasher.update(&gathered[..waiting]);
        hasher.finalize()
    }
}
