//! The bundled kernel, the demo program, and the generator of guest images from them.
//!
//! `generate` makes the image of a number as `specs/Generated` says: the kernel on one to four harts, with one to four
//! copies of the demo program, each under a key of its own, a schedule, and the rounds of each. The layer above may rely
//! on this: the bundle is the one of its number, it is in the grammar of bundles, and `file_length` is the length of its
//! file of version 2, which is not too large.
//!
//! Kernel and demo are tables of words, which is what images are made of: nothing is assembled when the program runs. Their
//! assembler texts are `data/kernel.s` and `data/demo.s`; a script sees that the assembler makes each table from its text
//! (`.ci/image-rows`). Nothing that cloaking promises rests on the kernel.
//!
//! No body changes `law_of_generated_images`. These changed definitions were tried on a copy, and with none of them
//! did its proof go through: the disk has 65 blocks; program d has the key d + 1; there are one to five harts.
#![tactic(auto)]

mod demo_table;
mod drawing;
mod generating;
mod kernel_table;
mod laws;
mod length;
mod programs;
mod segments;
mod summary;

pub use demo_table::demo_words;
pub use generating::generate;
pub use kernel_table::kernel_words;
pub use laws::law_of_generated_images;
pub use length::file_length;
pub use segments::put_words;
pub use summary::put_summary;
