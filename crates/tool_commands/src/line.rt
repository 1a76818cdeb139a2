/// The words of a command line, of which the first is the program's name.
#[derive(Drop)]
pub enum CommandLine {
    Taken(Vec<String>),
    /// A word is no text.
    NotText,
    /// There was not enough memory for them.
    NoMemory,
}
