ghost use Rattle.worked_rows.specs.AloneRows as row;

/// The machines that run alone, each with its half of a record.
pub fn rows_of_machines_alone()
    ensures whole_halves { row.WholeHalves }
    ensures forged_leave { row.ForgedLeave }
    ensures missing_answer { row.MissingAnswer }
    ensures other_answers { row.OtherAnswers }
    ensures letter { row.LetterAlone }
{}
