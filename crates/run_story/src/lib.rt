//! The violations of a run, told from its image and its record.
//!
//! The run is made again from the record (`replayed_run`). `Target` is what was presented in a step, and `PageDeed` is what was
//! done before to a page and its frames. The record itself says that a violation was met: a program ended, or a hart asked for
//! a context and there is neither a resume nor a program left. The record is read once for these, and once more up to each page
//! that was presented, for the deeds; so nothing is kept of it but the text. `explain_command` is the command `explain`.
//!
//! The layer above may rely on this: which violations items tell is a definition (`specs/Told`), and so is what is known of a
//! page that was presented (`specs/Presenting`), what was done to it before (`specs/Deeds`), and each sentence
//! (`specs/Passages`). A record is explained exactly if it is one and each item fits. Then a passage was shown for each of the
//! violations in their order, and the last sentence. If the file's bytes are told, the deeds of a page are those of the items
//! before its question, and of no others.
#![tactic(auto)]

mod carriers;
mod command;
mod deeds;
mod presented;
mod story;
mod telling;
mod untold;

pub use command::explain_command;
