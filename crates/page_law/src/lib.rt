//! Laws on the definitions alone: what a joint run (`cloak_model`, `specs/Run`) shows of the pages of programs, and who
//! changes and loads them. Each Cipher shows the newest bytes of a page under its program's key and a draw that nothing
//! else is shown under, or zeros if the random stream has ended; no page is sealed under another program's key, unless
//! the two have one; the newest bytes of a program's pages are changed by its own steps alone; and each cloaked load
//! that a step completes gives them. The laws that name keys hold of the run of every bundle in the grammar, the others
//! of every bundle, even of one that no file spells. All hold of both beginnings: of a run from a random stream alone,
//! whose first draws are the keys, and of one over the files of an earlier run, to which the keys are handed.
//!
//! No body changes a law, so there is no wrong body to refuse here. These changed definitions were tried on a copy,
//! and with none of them did the proofs of the law of Ciphers go through: a draw is not taken off the stream; without
//! a draw the page's bytes are shown; each page is sealed under the key of program 0; a page is placed with the bytes
//! that it had before; a store writes its page before it reaches it. The law of keys was not proved if all programs
//! have the first key, also only of the keys that are handed in, or if keys are numbered from the last draw, or if the
//! program of a page is told by its resource. That of loads was not proved if a load is told of with its value
//! extended by its sign, or of its page as the step left it, or of a page that lies in space 0. That of own pages was
//! not proved if a step is said to be of the hart whose turn is next, if the end of a domain is not told, or if the
//! closing is said to leave each page as the run began.
#![tactic(auto)]

ghost use Rattle.page_law.specs.Ciphers.{CiphersHaveOwnDraws, CiphersShowPages};
ghost use Rattle.page_law.specs.Keys.{ClosingKeepsKeys, PagesKeepTheirKeys};
ghost use Rattle.page_law.specs.Loads.{StepsLoadNewest};
ghost use Rattle.page_law.specs.OwnPages.{ClosingKeepsPages, StepsKeepPages};

/// Each Cipher of a run shows the newest bytes of a page, under its program's key and a draw of its own. It does
/// nothing: its contract is the law.
pub fn law_of_ciphers()
    ensures pages { CiphersShowPages }
    ensures draws { CiphersHaveOwnDraws }
{}

/// No page is sealed under a key that is not its program's. It does nothing: its contract is the law.
pub fn law_of_keys()
    ensures moments { PagesKeepTheirKeys }
    ensures closing { ClosingKeepsKeys }
{}

/// The newest bytes of a program's pages are changed by its own steps alone. It does nothing: its contract is the law.
pub fn law_of_own_pages()
    ensures steps { StepsKeepPages }
    ensures closing { ClosingKeepsPages }
{}

/// Each cloaked load that a step completes gives the bytes that its page had as the step found it. It does nothing: its
/// contract is the law.
pub fn law_of_loads()
    ensures { StepsLoadNewest }
{}
