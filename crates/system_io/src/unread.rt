//! The name of the file of which reading failed last.
ghost use Rattle.std.specs.Prelude.{◌≡◌, ◌≤◌, None, Some, IfOk, length};
ghost use Rattle.io_traits.specs.Told.{Tells};

use crate::kept_name::KeptName;
use cloak_base::NoMemory;
use std::alloc::Global;
use std::marker::Model;

/// The name of the file of which reading failed last, if reading failed and its name was not too long to be kept.
#[derive(Drop)]
pub struct Unread {
    is_kept: bool,
    name: KeptName,
}

impl Model for Unread {
    ghost use Rattle.std.specs.Prelude.{List, ℕ, Option, Some, None, cond};

    ghost Value = { Option (List ℕ) };

    ghost view = { λ s. cond s.is_kept (Some s.name) None };
}

impl Unread {
    /// No name is kept yet. All memory that is needed is taken here.
    pub fn none(alloc: Global) -> Result<Unread, NoMemory>
        ensures { IfOk result (λ unread. unread ≡ None) }
    {
        let name = KeptName::none(alloc)?;
        Ok(Unread {
            is_kept: false,
            name,
        })
    }

    /// Keeps this name instead of the last one. If it is too long, none is kept.
    #[cold]
    pub fn keep(&mut self, name: &str)
        ensures tells { Tells self.new name.now }
        ensures kept { length name.now ≤ 4096 → self.new ≡ Some name.now }
    {
        self.is_kept = self.name.keep(name);
    }
}
