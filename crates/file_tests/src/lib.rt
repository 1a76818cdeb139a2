//! Tests of the outside (files, output, random bytes), and of records and store files. Bundles, ELF files and texts are rows of
//! `.ci/image-rows`.
#![tactic(auto)]

#[cfg(test)]
mod checks;
#[cfg(test)]
mod file_shelf;
#[cfg(test)]
mod memory_shelf;
#[cfg(test)]
mod pieces;
#[cfg(test)]
mod records;
#[cfg(test)]
mod std_sink;
#[cfg(test)]
mod stores;
#[cfg(test)]
mod stream;
#[cfg(test)]
mod unfailing;
