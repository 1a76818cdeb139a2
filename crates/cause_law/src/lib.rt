//! Laws on the definitions alone: why a step of a joint run (`cloak_model`, `specs/Run`) meets a violation, what it
//! then ends, and what the closing of a run leaves. A violation comes only if the kernel's side presented something
//! other than what is recorded: a page whose bytes are not those last shown of it, a context that cannot run, or a
//! page table other than the first one of a space. And if that is presented, the step meets it, and the domain ends
//! and is listed; if there is no such domain, or it had ended, one more is counted. A domain has ended exactly if it is
//! listed, and only such a step lists one, or counts. If a question of a program was stopped, its domain ends in the
//! same step, unless a draw is missing, which stops the run. When a run was closed, no frame has anything left to show:
//! all of RAM, of which the report gives the digest, is what the kernel may see.
//!
//! A page is presented to an access of a step (`specs/Presented`): the fetch of an instruction, its load or store, the
//! word of an atomic instruction, or the byte that a call's copy reaches next. The page lies at the address of the access
//! in the context's space, and is found there in memory as the access finds it: a load comes after its fetch, which may
//! have shown frames.
//!
//! The laws hold from every beginning, also over the files of an earlier run, whatever they hold. What such a file has as
//! the ciphertext of a page is recorded as the run begins: it counts as last shown until the page is shown again.
//!
//! No body changes a law, so there is no wrong body to refuse here. These changed definitions were tried on a copy,
//! and with none of them did the proofs go through. Of the closing: the last frame is not settled; a frame is shown as
//! it was before; frames that are owed a page stay, too. Of violations and refusals: a resume with another page table
//! meets the violation of a context that cannot run; the violation of a page names the next frame; the frame of a page
//! is compared before it is settled; the step of an access is one in which an interrupt is due. Of ends: a domain that
//! had ended ends again at a resume; a resume without a domain is not counted; an end is not listed.
#![tactic(auto)]

ghost use Rattle.cause_law.specs.Causes.{CountHasCause, EndHasCause, ListedHaveEnded, ViolationHasCause};
ghost use Rattle.cause_law.specs.Causes.{PageIsRefused, PresentedIsRefused, StoppedEnds};
ghost use Rattle.cause_law.specs.Closing.{ClosingOwesNothing, ClosingShowsOwed, ClosingSparesOthers};

/// What the closing of a run shows, and that it leaves nothing to show. It does nothing: its contract is the law.
pub fn law_of_closing()
    ensures nothing_owed { ClosingOwesNothing }
    ensures shown { ClosingShowsOwed }
    ensures others { ClosingSparesOthers }
{}

/// A step meets a violation, a domain ends and a refusal is counted only if that was presented. It does nothing: its
/// contract is the law.
pub fn law_of_violations()
    ensures met { ViolationHasCause }
    ensures ended { EndHasCause }
    ensures listed { ListedHaveEnded }
    ensures counted { CountHasCause }
{}

/// What is presented instead of what is recorded ends its domain, or is counted. It does nothing: its contract is the
/// law.
pub fn law_of_refusals()
    ensures presented { PresentedIsRefused }
    ensures page { PageIsRefused }
    ensures stopped { StoppedEnds }
{}
