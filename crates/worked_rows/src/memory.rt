ghost use Rattle.worked_rows.specs.MemoryRows as row;

/// Cloaked memory in the middle of a step.
pub fn rows_of_cloaked_memory()
    ensures own_table { row.OwnTable }
    ensures fork_frames { row.ForkFrames }
    ensures write_area { row.WriteArea }
{}
