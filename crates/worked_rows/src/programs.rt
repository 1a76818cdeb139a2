ghost use Rattle.worked_rows.specs.DomainRows as row;

/// A cloaked program alone: what its steps do when its questions find these answers.
pub fn rows_of_a_program()
    ensures whole { row.WholeProgram }
    ensures load_fault { row.LoadFault }
    ensures fetch_fault { row.FetchFault }
    ensures timer { row.TimerShows }

    // Calls to the kernel with a buffer.
    ensures write_three { row.WriteThree }
    ensures write_none { row.WriteNone }
    ensures read_too_long { row.ReadTooLong }
    ensures read_crossing { row.ReadCrossing }
    ensures unmapped_buffer { row.UnmappedBuffer }

    // Hypercalls.
    ensures new_refused { row.NewRefused }
    ensures map_refused { row.MapRefused }
    ensures others_refused { row.OthersRefused }
    ensures files { row.FileRows }
    ensures threads { row.Threads }
    ensures last_exit { row.LastExit }
    ensures other_exit { row.OtherExit }
    ensures fork { row.ForkedSpace }
    ensures shared_file { row.SharedFile }
    ensures fork_refused { row.ForkRefused }
    ensures forked_child { row.ForkedChild }
    ensures root { row.FirstRoot }
{}
