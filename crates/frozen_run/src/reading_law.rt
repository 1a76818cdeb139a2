ghost use Rattle.std.specs.Prelude.{ℕ, List};
ghost use Rattle.cloak_model.specs.declared.image.KernelImage.{KernelImage};
ghost use Rattle.frozen_run.specs.Laws.{SpellsOne, HasFaultOrState};

/// The law of frozen states: a file spells one state of an image at most. What spells a state has no fault, and bytes
/// without a fault spell one. It does nothing: its contract is the law.
pub fn law_of_frozen_states()
    ensures one_state { (k : KernelImage) (programs : ℕ) (bundle bytes : List ℕ) → SpellsOne k programs bundle bytes }
    ensures fault_or_state { (k : KernelImage) (programs : ℕ) (bundle bytes : List ℕ) →
        HasFaultOrState k programs bundle bytes }
{}
