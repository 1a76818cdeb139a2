//! Confidentiality under an ideal cipher.
ghost use Rattle.cloak_model.specs.BlindRuns.{BlindClosingsAgree, BlindStepsAgree, BlindTurnsAgree, SealStays};
ghost use Rattle.cloak_model.specs.SealedRuns.{BlindRunsAreOne, PaddedRunsAreOne, RunIsChained};

/// Under a seal that depends on the vector alone, what two machines write and show in their steps is one, whatever their
/// programs' pages, registers and keys are, if their programs' steps have one shape each. It does nothing: its contract is
/// the law.
pub fn law_of_blind_steps()
    ensures seal { SealStays }
    ensures steps { BlindStepsAgree }
    ensures turns { BlindTurnsAgree }
    ensures closings { BlindClosingsAgree }
{}

/// Two runs of images that are alike but for the bytes of their programs, over a seal that depends on the vector alone and
/// under any keys, whose programs' steps have one shape each, have the same exchange, console, disk, steps and stop. The run
/// that is made is the one over chained AES. It does nothing: its contract is the law.
pub fn law_of_blind_runs()
    ensures runs { BlindRunsAreOne }
    ensures padded { PaddedRunsAreOne }
    ensures real { RunIsChained }
{}
