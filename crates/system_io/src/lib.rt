//! The outside of the machine in the system: its files (`FileShelf`) and its standard output (`StdSink`).
//!
//! Where bytes meet the system stand two small traits, `FileSystem` and `Output`, which tell their bytes. What is
//! gathered, read ahead and kept open above them is proved for any disk and any output. Their implementations over the
//! system, `SystemFiles` and `SystemConsole`, tell no bytes: that the system does what they ask is trusted.
#![tactic(auto)]

mod file_shelf;
mod file_system;
mod gathered;
mod kept_name;
mod named_file;
mod output;
mod reader;
mod std_sink;
mod system_files;
mod unread;

pub use file_shelf::FileShelf;
pub use file_system::FileSystem;
pub use output::{Output, SystemConsole, write_front};
pub use std_sink::StdSink;
pub use system_files::SystemFiles;
