//! What is asked of the tools.

/// Which words must be shown.
#[derive(Clone, Copy)]
pub struct DisasmRequest<'a> {
    /// The file of the words, or of the image that they are of.
    pub words: &'a str,
    /// The address of the first word, as it was written.
    pub base: Option<&'a str>,
    /// A segment of the image, from 0 on.
    pub segment: Option<u32>,
    /// A program of the image, from 0 on.
    pub program: Option<u32>,
}

/// What must be shown of a record.
#[derive(Drop)]
pub struct ShowRequest<'a> {
    pub record_name: &'a str,
    /// The first step; 0 is the opening.
    pub from: u32,
    /// The last step.
    pub to: u32,
    /// Names of kinds of items; if there are none, all items are meant.
    pub only: Option<Vec<&'a str>>,
    /// How many items there are of each kind, instead of the items.
    pub counts: bool,
    /// Objects of JSON, instead of text.
    pub json: bool,
}

/// What options name of the cloaked files that a run went on from.
#[derive(Clone, Copy)]
pub struct OldNamed<'a> {
    /// The store file that the run read.
    pub old: Option<&'a str>,
    pub secret: Option<&'a str>,
    pub counter: Option<u32>,
}

/// What must be shown of the steps of a run.
#[derive(Clone, Copy)]
pub struct TraceRequest<'a> {
    pub bundle: &'a str,
    pub record_name: &'a str,
    /// The program whose side is shown; the kernel's, if none is named.
    pub program: Option<u32>,
    /// The first step.
    pub from: u32,
    /// The last step.
    pub to: u32,
    /// The hart whose steps are shown; all, if none is named.
    pub hart: Option<u32>,
    pub old: OldNamed<'a>,
}

/// What is asked for.
#[derive(Drop)]
pub enum ToolRequest<'a> {
    Asm {
        text: &'a str,
        words: &'a str,
    },
    Disasm(DisasmRequest<'a>),
    Pack {
        manifest: &'a str,
        bundle: &'a str,
    },
    Show(ShowRequest<'a>),
    Trace(TraceRequest<'a>),
    Draw {
        bundle: &'a str,
        record_name: &'a str,
        /// The file that gets the picture.
        out: &'a str,
    },
    Explain {
        bundle: &'a str,
        record_name: &'a str,
    },
}

/// What the words result in.
#[derive(Drop)]
pub enum ToolWords<'a> {
    Asks(ToolRequest<'a>),
    /// They ask for help or the version, which is this text.
    Help(String),
    /// They are faulty, as this text says.
    Faulty(String),
}
