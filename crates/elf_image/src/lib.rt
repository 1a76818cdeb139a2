//! An ELF file, as far as an image is made of it: an executable of a 32-bit RISC-V machine, little-endian, without
//! compressed instructions and without floating-point registers. `read_elf` returns its entry and its loadable parts,
//! or its first fault. It takes no memory: a part's bytes are a slice of the file.
//!
//! The fields are those of the System V Application Binary Interface, edition 4.1, chapters 4 and 5, and of the RISC-V
//! ELF psABI, version 1.0. Sections, symbols and program headers that are not loadable are not read.
#![tactic(auto)]

mod fault;
mod fields;
mod header;
mod image;
mod part;

pub use fault::{ElfCause, ElfFault};
pub use image::{ElfImage, read_elf};
pub use part::ElfPart;
