//! What is said of a status on standard error.
ghost use Rattle.std.specs.Prelude.{◌≡◌};
ghost use Rattle.tool_commands.specs.ToolSentence.{tool_sentence};

use command_parts::Status;

/// What is said of a status; nothing of one that says that all was done.
pub fn sentence(status: Status) -> &'static str
    ensures { result.now ≡ tool_sentence status }
{
    match status {
        Status::Usage => "tools: the words are faulty (tools help says which there are)\n",
        Status::BadBundle => {
            "tools: a text, a manifest or an image is faulty; standard output says why\n"
        }
        Status::ReadFault => "tools: a file could not be read\n",
        Status::WriteFault => "tools: a file or the output could not be written\n",
        Status::NoMemory => "tools: there is not enough memory\n",
        Status::BadRecord => {
            "tools: the file is not a record, or does not fit the image; standard output says where (of a run over cloaked \
             files only trace takes these, by --files, --secret and --counter)\n"
        }
        Status::BadStore => {
            "tools: no run goes on over the store file with this secret and this counter, and it was shown why\n"
        }
        Status::Done | Status::Violation | Status::NoRandom | Status::Frozen | Status::BadState =>
            "",
    }
}
