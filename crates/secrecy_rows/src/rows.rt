//! A program that keeps a secret word, and one that does not.
ghost use Rattle.std.specs.Prelude.{ℕ};
ghost use Rattle.secrecy_rows.specs.Rows.{PremiseIsNeeded, SecretIsKept, SecretIsThere, SecretIsTold};

/// A program that loads a secret word, adds to it, stores it and ends shows the same whatever the word is, under a blind
/// seal. One that calls the kernel or not by its secret word does not.
pub fn rows_of_secrecy()
    ensures kept { SecretIsKept }
    ensures there { SecretIsThere }
    ensures told { SecretIsTold }
    ensures needed { PremiseIsNeeded }
{}
