ghost use Rattle.cloak_pager.specs.Calls.{LawOfCalls};

use crate::pager::Pager;

/// The law over every list of calls. It does nothing: its contract is the law.
pub fn law_of_calls()
    ensures { LawOfCalls }
{}

impl Pager {
    ghost use Rattle.cloak_pager.specs.State.{IsWholePager};

    /// What is true of every pager, for proofs of the layer above. It does nothing.
    pub fn whole(&self)
        ensures { IsWholePager self.now }
    {
        let _ = &self.rights;
    }
}
