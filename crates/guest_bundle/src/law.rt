ghost use Rattle.cloak_model.specs.Versions.{VersionsAgree};

/// The law on versions: version 2 of what a file of version 1 spells is the same bundle, unless it is too large, and
/// has the same joint run. It does nothing: its contract is the law.
pub fn law_of_versions()
    ensures { VersionsAgree }
{}
