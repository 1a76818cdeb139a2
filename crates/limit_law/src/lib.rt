//! Laws on the definitions alone: what holds at every moment of every run (`cloak_model`, `specs/Run`), also after its
//! last step, whatever the kernel does. Each program keeps its limits: each of its contexts is of a space in use, at a
//! word of the program and has the registers that its phase needs; what it has reserved is a word of a page that a
//! program can have; and resources and regions fit together. No page is owed by two frames. A page table is recorded
//! only of a space in use, of a program that there is. Registers, program counters and the numbers of files are words.
//! Nothing is left of a program that has ended, and its place tells that it has. Each step refuses one resuming at
//! most. The laws are of images in the grammar, from every beginning and with every budget, also over the files of an
//! earlier run; those on owed pages and on refusals are of all images, and those on words are of images and beginnings of
//! bytes.
//!
//! No body changes a law, so there is no wrong body to refuse here. These changes were tried on a copy, and with none
//! of them did the proofs go through. Of the limits: 15 regions in a space; harts below 3; program counters that are
//! multiples of 8; no context waits; reservations in 15 resources, in 1023 pages, or at multiples of 8. Of the
//! definitions: THREAD does not test its program counter; EXIT ends its space though another context is in it; an offer
//! does not settle the frame that is owed the page; the page table of a space that ended stays recorded; a reservation
//! names its page by the address. Of owed pages: those of one resource count as one, or those with one number; a frame
//! that is settled is still owed its page. Of page tables: their spaces were in use as the run began; that of a context
//! that is resumed is recorded of the next space; those of a domain that ended stay recorded. Of words: programs have
//! numbers below 3; program counters are below 2^31; contexts have numbers below 8. Of the numbers of files: they are
//! below 2^31; the image has any numbers instead of bytes, or what the run begins with has. Of the end of a domain: its
//! contexts stay; its page tables stay recorded; no page table of a program with a lower number is recorded; what ended
//! it is not kept; there are three places for what ended a program; the place of the next number is taken. Of refusals:
//! one counts twice; there are fewer than steps; there are fewer than 2^63.
#![tactic(auto)]

ghost use Rattle.limit_law.specs.Endings.{EndedAreGone, EndedAreTold, RefusalsAreFew};
ghost use Rattle.limit_law.specs.Files.{RunsHaveFileWords};
ghost use Rattle.limit_law.specs.Limits.{RunsKeepLimits};
ghost use Rattle.limit_law.specs.Owed.{PagesAreOwedOnce};
ghost use Rattle.limit_law.specs.Roots.{RootsAreOfSpacesInUse};
ghost use Rattle.limit_law.specs.Words.{RunsHaveWords};

/// Each program keeps its limits at every moment. It does nothing: its contract is the law.
pub fn law_of_limits()
    ensures { RunsKeepLimits }
{}

/// Each page is owed by one frame at most. It does nothing: its contract is the law.
pub fn law_of_owed_pages()
    ensures { PagesAreOwedOnce }
{}

/// Page tables are recorded of spaces in use alone. It does nothing: its contract is the law.
pub fn law_of_roots()
    ensures { RootsAreOfSpacesInUse }
{}

/// Harts and contexts hold words. It does nothing: its contract is the law.
pub fn law_of_words()
    ensures { RunsHaveWords }
{}

/// The numbers of files are words. It does nothing: its contract is the law.
pub fn law_of_file_words()
    ensures { RunsHaveFileWords }
{}

/// A program that has ended has no context, space, resource or recorded page table. It does nothing: its contract is the
/// law.
pub fn law_of_endings()
    ensures { EndedAreGone }
{}

/// The place for what ended a program is taken exactly if it has ended. It does nothing: its contract is the law.
pub fn law_of_ended_places()
    ensures { EndedAreTold }
{}

/// There are no more refusals than steps. It does nothing: its contract is the law.
pub fn law_of_refusals()
    ensures { RefusalsAreFew }
{}
