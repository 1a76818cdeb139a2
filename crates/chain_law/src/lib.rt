//! Laws on the definitions alone: cloaked files over runs, each of which goes on over the files of the one before
//! (`cloak_model`, `specs/StoredRun` and `specs/Beginning`). What a run leaves of a file is the content of each page
//! that was shown; a page that was never shown is zeros (`specs/Zeros`). So the next run begins with the same files,
//! and each byte of their pages is the one that was stored last (`specs/Chain`). Over a chain of runs a completed
//! load gives what was stored last in all of them: that is told by the moves of the runs (`latest_store`,
//! `specs/Moves`) and by which file a resource is, and neither memory nor contents are looked at.
//!
//! No run goes on from one in which a random draw was missing (`GoesOnFrom`): the frame of the page that found
//! none shows zeros, and nothing is recorded of the page.
//!
//! No body changes a law, so there is no wrong body to refuse here. With these changed definitions, tried on a copy,
//! the proofs did not go through. Of what a run leaves: the ciphertext of a page for its newest bytes; nothing of a
//! page that was shown; the files in order, without one that stands before another; the resources of a domain, all
//! counted as the first; the files of every second domain. Of runs: one goes on though a draw was missing in the run
//! before. Of a chain: a page of a file begins with the byte of the image, or with that of the page with the same
//! number of a resource in the run before, or of the page that was the file's as that run began; the last step of the
//! run before is left out; a page that is copied over keeps its bytes, and so does one that is dropped; an operation
//! takes the word that was there before the run; a load gives the bytes that were there before the run. Of pages that
//! were never shown: one that is recorded is among them, or one that the first frame is owed; they are zeros also if
//! a draw was missing; each page has a vector.
#![tactic(auto)]

ghost use Rattle.chain_law.specs.Chain.{ChainsGiveLatest, EndUnmakesFiles, FilesGoOn, LatestIsSince};
ghost use Rattle.chain_law.specs.Zeros.{LeftUnshownAreZeros, UnshownAreZeros};

/// A page that was never shown, and that no frame is owed, is zeros; and each page that is recorded has its vector.
/// So it is at every moment of a run, and as it was closed. It does nothing: its contract is the law.
pub fn law_of_unshown_pages()
    ensures moments { UnshownAreZeros }
    ensures closed { LeftUnshownAreZeros }
{}

/// A run begins with the files of the run before, and each byte of their pages is the one that was stored last. A
/// program that has ended has left none. It does nothing: its contract is the law.
pub fn law_of_files_over_runs()
    ensures files { FilesGoOn }
    ensures ended { EndUnmakesFiles }
{}

/// Over a chain of runs, a load gives the bytes that were stored last in all of them; and what is stored last since
/// some moment is told as it is of a whole history. It does nothing: its contract is the law.
pub fn law_of_chains()
    ensures runs { ChainsGiveLatest }
    ensures since { LatestIsSince }
{}
