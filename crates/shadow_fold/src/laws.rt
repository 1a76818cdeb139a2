ghost use Rattle.shadow_fold.specs.Following.{CallsFollow};
ghost use Rattle.shadow_fold.specs.Keeping.{EndingKeeps, FoundAgrees, InsertKeeps};
ghost use Rattle.shadow_fold.specs.Rows.{SmallestRun, ThreeKinds};

/// A table that is told of each event by these calls has the entries and the counts of the fold over the events. It
/// does nothing: its contract is the law.
pub fn law_of_following()
    ensures { CallsFollow }
{}

/// What is found agrees if all live entries do, and each call keeps that all do, if single entries keep it. It does
/// nothing: its contract is the law.
pub fn law_of_agreement()
    ensures found { FoundAgrees }
    ensures ending { EndingKeeps }
    ensures insert { InsertKeeps }
{}

/// Worked counts, computed from the definitions. It does nothing: its contract is the rows.
pub fn rows_of_counts()
    ensures smallest { SmallestRun }
    ensures three_kinds { ThreeKinds }
{}
