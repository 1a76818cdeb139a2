ghost use Rattle.worked_rows.specs.JointRows as row;

/// Joint runs: of the whole cloaked program, and of kernels alone.
pub fn rows_of_joint_runs()
    ensures whole { row.WholeRun }

    // Random streams that end.
    ensures three_draws { row.ThreeDraws }
    ensures two_draws { row.TwoDraws }
    ensures no_run { row.NoOpening }

    // A program under another key.
    ensures other_key { row.OtherKey }

    // Resumes that are refused.
    ensures two_harts { row.TwoHarts }
    ensures no_context { row.NoContext }
    ensures no_program { row.NoProgram }
    ensures other_root { row.OtherRoot }
    ensures after_exit { row.AfterExit }

    // What the kernel does to a program's frame.
    ensures flipped_bit { row.FlippedBit }
    ensures nothing_flipped { row.NothingFlipped }

    // Kernels alone.
    ensures smallest { row.SmallestRun }
    ensures no_step { row.NoStep }
    ensures stop_lines { row.StopLines }
{}
