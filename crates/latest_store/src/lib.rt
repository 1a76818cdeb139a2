//! Laws on the definitions alone: what a completed cloaked load of a joint run (`cloak_model`, `specs/Run`) gives is,
//! byte by byte, what its own program stored last at that byte of the page since the page was made, or the byte with
//! which it was made. What was stored is read off the steps: the instructions of the program's contexts, the bytes
//! that READ copied in, forks and ends of spaces, ends of domains (`specs/Deeds`). Pages are made with the bytes of the
//! image, and with those of the files that the run begins over, each file as the resource that it is in the opened
//! machine (`specs/LatestStore`). LR is a load, and SC a store if it stores. An atomic operation is a load of the word
//! that stood, and then stores what it makes of this word and its operand. So additions to a word add up, whatever the
//! schedule (`specs/Sums`). After its end a domain completes no load, and its pages are zeros.
//!
//! Both laws hold of both beginnings. The first asks that the files of a beginning are such that a table can tell of
//! them, and that each of their ciphertexts is that of its page (`IsBeginning`). That is nothing if there are none.
//!
//! No body changes the laws, so there is no wrong body to refuse here. With these changed definitions, tried on a copy,
//! the proofs did not go through: a fork makes pages of zeros; the end of a domain drops only 15 of its 16 numbers; SC
//! stores without a reservation; an operation loads after it has stored; LR is no load; an operation takes the word
//! and its operand the other way round; a store that begins before a word and runs into it does not write in it; a
//! page that is copied over is not written in; each operation counts as an addition.
#![tactic(auto)]

ghost use Rattle.latest_store.specs.LatestStore.{RunsGiveLatest};
ghost use Rattle.latest_store.specs.Sums.{RunsAddUp};

/// Each completed cloaked load of a run gives what was stored last, and additions to a word add up. It does nothing: its
/// contract is the law.
pub fn law_of_latest_store()
    ensures latest { RunsGiveLatest }
    ensures sums { RunsAddUp }
{}
