//! Tests of a cloaked program alone and of its parts: its resources, its files, its instructions, and the fork of a space.
#![tactic(auto)]

#[cfg(test)]
mod checks;
#[cfg(test)]
mod files;
#[cfg(test)]
mod forks;
#[cfg(test)]
mod instructions;
#[cfg(test)]
mod programs;
#[cfg(test)]
mod resources;
