//! Laws on the definitions alone: why a machine may translate by its shadow entries (`shadow_fold`, `specs/Agreement`)
//! instead of by walks. An entry that agrees with memory gives what a walk would give now, and each change of memory
//! keeps the agreement of the entries that the event of the change does not end.
//!
//! What a frame holds is no part of the ledger: the laws speak of any `held`, as far as a frame that is owed a page holds
//! it. A machine takes what its pager holds.
//!
//! No body changes a law, so there is no wrong body to refuse here. These changed definitions were tried on a copy,
//! and with none of them did the proof of its law go through. Of walks: all addresses of a page lead where its start
//! leads; the tables of a walk are those of its first level alone; a walk depends on its last table alone; a page has
//! 2048 bytes. Of changes: an entry goes on when a frame is written, settled or offered that it leads through, and not
//! to, or if it leads to the page that is offered, or if it is of the space that changed. Of tables: the settling of a
//! frame ends only the entries that lead to it; a write ends none, nor does an offer that is granted, nor a change of
//! regions. Of misses: the table frames of the new entry may hold pages; the entry is of the next page; its target
//! need not agree, or may lie outside RAM. Of new entries: a walk stays if its table frames hold pages, or if a page
//! is offered in one of them; an entry becomes live that does not agree. Of hits: the address is the start of the
//! frame; nothing is touched; frames may hold older bytes than those that were shown.
#![tactic(auto)]

ghost use Rattle.shadow_law.specs.Agreeing.{BornAgrees, ChangeKeeps, HitIsWalk, HitIsOffer, OfferKeeps, RemapKeeps};
ghost use Rattle.shadow_law.specs.Agreeing.{TouchKeeps, WriteKeeps};
ghost use Rattle.shadow_law.specs.Misses.{AskedWalk, SettledWalk, OfferedWalk, OpenEntryAgrees, PageEntryAgrees};
ghost use Rattle.shadow_law.specs.Misses.{EntryWithin, BirthKeeps, BirthKeepsMapped, BirthKeepsWithin};
ghost use Rattle.shadow_law.specs.Tables.{GrantAgrees, HeldAgrees, RefuseAgrees, RemapAgrees, TouchAgrees, WriteAgrees};
ghost use Rattle.shadow_law.specs.Walks.{WalkKept, WalkOfPage, WalkReaches, WalkWithin};

/// What the walk of an access depends on. It does nothing: its contract is the law.
pub fn law_of_walks()
    ensures reaches { WalkReaches }
    ensures kept { WalkKept }
    ensures of_page { WalkOfPage }
    ensures within { WalkWithin }
{}

/// An entry that no event ends goes on agreeing. It does nothing: its contract is the law.
pub fn law_of_changes()
    ensures write { WriteKeeps }
    ensures touch { TouchKeeps }
    ensures offer { OfferKeeps }
    ensures change { ChangeKeeps }
    ensures remap { RemapKeeps }
{}

/// All live entries of a table go on agreeing, if the entries of a change's event end. It does nothing: its contract
/// is the law.
pub fn law_of_tables()
    ensures write { WriteAgrees }
    ensures touch { TouchAgrees }
    ensures held { HeldAgrees }
    ensures grant { GrantAgrees }
    ensures refuse { RefuseAgrees }
    ensures remap { RemapAgrees }
{}

/// A miss makes an entry that agrees. It does nothing: its contract is the law.
pub fn law_of_misses()
    ensures { BornAgrees }
{}

/// The walk of a miss stays as it was after what its access does then, so that its entry agrees, and so do all live
/// entries with it. It does nothing: its contract is the law.
pub fn law_of_new_entries()
    ensures asked { AskedWalk }
    ensures settled { SettledWalk }
    ensures offered { OfferedWalk }
    ensures open { OpenEntryAgrees }
    ensures page { PageEntryAgrees }
    ensures within { EntryWithin }
    ensures birth { BirthKeeps }
    ensures birth_mapped { BirthKeepsMapped }
    ensures birth_within { BirthKeepsWithin }
{}

/// An entry that agrees gives what a walk and an offer would. It does nothing: its contract is the law.
pub fn law_of_hits()
    ensures walk { HitIsWalk }
    ensures offer { HitIsOffer }
{}
