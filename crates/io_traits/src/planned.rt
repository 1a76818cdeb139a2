ghost use Rattle.std.specs.Prelude.{◌≡◌, ◌↔◌, IsTrue, Contains};
ghost use Rattle.io_traits.specs.Memory.{one_more};

/// The numbers of the calls that are to fail, counted from 1, and how many calls there were.
#[derive(Drop)]
pub struct Planned {
    pub fails: Vec<u64>,
    pub calls: u64,
}

impl Planned {
    /// Counts a call, and says whether it is to fail.
    pub fn is_next_to_fail(&mut self) -> bool
        ensures listed { IsTrue result ↔ Contains self.old.fails.items self.new.calls }
        ensures calls { self.new.calls ≡ one_more self.old.calls }
        ensures fails { self.new.fails ≡ self.old.fails }
    {
        self.calls = self.calls.saturating_add(1);
        self.fails.contains(&self.calls)
    }
}
