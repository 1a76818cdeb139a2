ghost use Rattle.std.specs.Prelude.{ℕ, List};
ghost use Rattle.sealed_store.specs.Laws.{SpellsOne, HasFaultOrTable};

/// The law of store files: a file spells one table at most. What spells a table has no fault, and bytes without a fault
/// spell one. It does nothing: its contract is the law.
pub fn law_of_stores()
    ensures one_table { (mac : List ℕ) (counter : ℕ) (bytes : List ℕ) → SpellsOne mac counter bytes }
    ensures fault_or_table { (mac : List ℕ) (counter : ℕ) (bytes : List ℕ) → HasFaultOrTable mac counter bytes }
{}
