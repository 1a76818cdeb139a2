//! The command `gen`.
ghost use Rattle.std.specs.Prelude.{◌≡◌, ◌<◌, ◌-◌, ◌^◌, IfOk};
ghost use Rattle.command_parts.specs.Outside.{outside};
ghost use Rattle.image_commands.specs.Generating.{GenAnswers, image_bytes};

use cloak_base::NoMemory;
use command_parts::{Refusal, Status, refuse, write_file};
use guest_bundle::write;
use guest_kernel::{generate, put_summary};
use io_traits::{Shelf, Sink};
use std::alloc::Global;

/// The bytes of the file of a number's image.
fn file_bytes(alloc: Global, number: u64) -> Result<Vec<u8>, NoMemory>
    ensures { IfOk result (λ bytes. bytes.items ≡ image_bytes number) }
{
    let bundle = generate(alloc, number)?;
    write(alloc, &bundle)
}

/// Writes the image of a number to the file of a name, and then shows its line.
pub fn gen_command<S: Shelf, O: Sink>(
    alloc: Global,
    number: u64,
    bundle: &str,
    shelf: &mut S,
    out: &mut O,
) -> Status
    requires writing { S.writing_faults shelf.old < 2 ^ 64 - 1 }
    requires output { O.faults out.old < 2 ^ 64 - 1 }
    ensures { GenAnswers number bundle.now
        (outside S.Shelf O.Sink shelf.old out.old) (outside S.Shelf O.Sink shelf.new out.new) result }
{
    let Ok(bytes) = file_bytes(alloc, number) else {
        return refuse(out, &Refusal::NoMemory);
    };
    if write_file(shelf, bundle, bytes.as_slice()).is_err() {
        return Status::WriteFault;
    }
    if put_summary(out, number).is_err() {
        return Status::WriteFault;
    }
    Status::Done
}
