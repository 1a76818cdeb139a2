ghost use Rattle.worked_rows.specs.StoreRows as row;

/// Store files: a vector of their code, what tables spell, and first faults.
pub fn rows_of_stores()
    ensures vector { row.IsVector }
    ensures spelled { row.SpelledTables }
    ensures faults { row.Faults }
{}
