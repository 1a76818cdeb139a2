ghost use Rattle.worked_rows.specs.PremiseRows as row;

/// What laws ask of a run, met by worked runs.
pub fn rows_of_premises()
    ensures whole { row.WholePremises }
    ensures half { row.OneHalf }
    ensures smallest { row.SmallestPremises }

    // Over files of an earlier run.
    ensures stored { row.StoredPremises }

    // Reservations.
    ensures words { row.ReservingWords }
    ensures hart { row.HartPremises }
    ensures context { row.ContextPremises }

    // Steps that meet violations.
    ensures violations { row.Violations }

    // What a record is, and is not.
    ensures records { row.RecordPremises }
{}
