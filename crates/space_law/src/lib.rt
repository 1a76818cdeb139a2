//! Laws on the definitions alone: why an entry of a program names the page that its space has at its address
//! (`shadow_fold`, `specs/Agreement`, IsMapped). A step makes entries only of pages that lie there, a step outside
//! makes none of a page, and a page that lies somewhere stays there until a step says that the space changed.
//!
//! The first law takes spaces in which all addresses of a page lie in one page of the program, or in none, as regions
//! start and end at pages. The second speaks of every machine, and of a step of any hart: a step outside, a resume and
//! an interrupt leave all spaces, and so does a program's step but for MAP, UNMAP and the end of a space, which are
//! told of. A fork makes its new space where there was none. Both hold of the whole step, too, with the end of a domain
//! after it: the end makes no entry, it changes the spaces of its domain alone, and each of them is told of.
//!
//! No body changes a law, so there is no wrong body to refuse here. These changed definitions were tried on a copy, and
//! with none of them did the proof of its law go through. Of births: a reach makes known the next page of the resource;
//! a load, or an atomic instruction, reaches its page at the offset of the address alone; a copied byte reaches its
//! page at the address of the area; an access that is not cloaked makes known a page, or only a load outside does, or
//! only a store outside; what a program's step asked is told of as of space 0, as of domain 0, or as of a hart outside.
//! Of spaces: MAP and UNMAP say nothing of the space; that its regions changed is not told of, or as of domain 0; the
//! end of a space is not told of; it takes the regions of space 0; a fork makes space 0; a write changes the number of
//! its domain.
#![tactic(auto)]

ghost use Rattle.space_law.specs.Mapping.{MakesMapped, MakesOutside, StepKeepsPages, StepMakesMapped, TurnKeepsPages, TurnMakesMapped};

/// The entries that a program's step makes are of pages that its space has, those of a step outside are of no page, and
/// so it is of each step of a machine, also with the end of a domain after it. It does nothing: its contract is the
/// law.
pub fn law_of_births()
    ensures inside { MakesMapped }
    ensures outside { MakesOutside }
    ensures turn { TurnMakesMapped }
    ensures step { StepMakesMapped }
{}

/// A step leaves each page where a space has it, unless it says that the space changed, also with the end of a domain
/// after it. It does nothing: its contract is the law.
pub fn law_of_spaces()
    ensures turn { TurnKeepsPages }
    ensures step { StepKeepsPages }
{}
