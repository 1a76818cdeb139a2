//! What a step of a program leaves as it was, of the side that it asks and of the context that it steps
//! (`specs/Staying`). The functions of the crates of a program's step say it in one clause each.
#![tactic(auto)]
