//! Laws on the definitions alone: no initialization vector that a run keeps is a key by its place in the random stream, and
//! none that STATE or NEW shows is.
//!
//! At every moment of every run each page that was shown was last shown under a draw of the run's stream that comes after
//! those for keys, or under a vector that the store file of the run before tells. A frozen state shows programs, and pages
//! that frames are owed, under the draws of the vectors that are handed to it, one after another: none of the run's stream.
//! So keys are shown only if one file is named for both, or if two files have the same bytes; the first is refused
//! (`command_words`).
//!
//! No body changes a law, so there is no wrong body to refuse here. These changed definitions were tried on a copy, and
//! with none of them did the proof of its law go through: the first draw after those for keys is no vector; no vector is
//! one from an earlier run; a frozen state shows programs and owed pages under the vectors from the second on, or under
//! draws of the run's stream; it tells of recorded pages draws of the vectors.
#![tactic(auto)]

ghost use Rattle.vector_law.specs.Vectors.{RunsKeepNoKeys, StatesShowNoKey, StoresTellNoKey};

/// Pages are shown under no key. It does nothing: its contract is the law.
pub fn law_of_vectors()
    ensures { RunsKeepNoKeys }
{}

/// A frozen state shows no key as a vector. It does nothing: its contract is the law.
pub fn law_of_states()
    ensures { StatesShowNoKey }
{}

/// What a run leaves of its files tells no key as a vector. It does nothing: its contract is the law.
pub fn law_of_store_files()
    ensures { StoresTellNoKey }
{}
