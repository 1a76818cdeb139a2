//! What is asked of a record that was written.
ghost use Rattle.std.specs.Prelude.{◌≤◌};
ghost use Rattle.command_words.specs.Command.{last_domain};

/// The files whose record is read back: the guest image of a run, and the record that it wrote.
#[derive(Drop)]
pub struct RecordRequest<'a> {
    pub bundle: &'a str,
    pub record_name: &'a str,
}

/// The cloaked files that a run went on from.
#[derive(Clone, Copy)]
pub struct OldFiles<'a> {
    /// The store file that it read, unless the counter is 0.
    pub old_name: &'a str,
    pub secret_name: &'a str,
    /// 0 if there were no files yet.
    pub counter: u64,
}

/// A program whose part of a record is asked for.
#[derive(Drop)]
pub struct SoloRequest<'a> {
    pub domain: u32,
    pub files: RecordRequest<'a>,
    ghost few: { domain ≤ last_domain },
}

/// A program whose part of the record of a run over cloaked files is asked for.
#[derive(Drop)]
pub struct SoloOverRequest<'a> {
    pub solo: SoloRequest<'a>,
    pub old: OldFiles<'a>,
}
