ghost use Rattle.worked_rows.specs.AtomicRows as row;

/// Atomic instructions: their words, what operations store, and reservations of harts and of contexts.
pub fn rows_of_atomics()
    ensures words { row.TableWords }
    ensures operations { row.Operations }

    // Reservations of harts.
    ensures hart_reserves { row.HartReserves }
    ensures settled_frame { row.SettledFrame }

    // Reservations of contexts, and what else is told of them.
    ensures context_reserves { row.ContextReserves }
    ensures context_traps { row.ContextTraps }
    ensures atomic_loads { row.AtomicLoads }
    ensures atomic_faults { row.AtomicFaults }

    // A sum over two harts.
    ensures sums { row.AddedSums }
{}
