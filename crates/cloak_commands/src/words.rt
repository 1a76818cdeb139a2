/// The words after the program's name.
#[derive(Drop)]
pub enum ProgramWords {
    Taken(Vec<String>),
    /// One of them is no text.
    NotText,
    /// There was not enough memory for them.
    NoMemory,
}
