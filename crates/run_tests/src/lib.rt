//! Tests of whole calls of the program over files in memory: if any one call on them fails, and if none can. Runs whose calls
//! succeed are the rows of `.ci/rows`.
#![tactic(auto)]

#[cfg(test)]
mod checks;
#[cfg(test)]
mod failing;
#[cfg(test)]
mod unfailing;
