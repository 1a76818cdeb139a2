//! The console of a kernel that runs alone.
ghost use Rattle.std.specs.Prelude.{◌++◌, [], ◌∷◌, ℕ, List};
ghost use Rattle.cloak_model.specs.Exchange.{Emits, shown_each};
ghost use Rattle.cloak_model.specs.KernelAlone.{console_byte};
ghost use Rattle.alone_views.specs.KernelConsole.{ConsoleCounts};

use cloak_model::Emit;
use host_calls::Kernel;
use kernel_report::Console;

/// Takes a byte, as long as its bytes can be counted.
fn put_counted(console: &mut Console, b: u8)
    ensures { (bytes : List ℕ) → ConsoleCounts console.old bytes → ConsoleCounts console.new (bytes ++ b ∷ []) }
{
    if console.count < u64::MAX {
        console.put(b);
    }
}

/// Shows the byte of a step, if there is one.
pub fn show<E: Emit>(console: &mut Console, ending: Kernel, e: &mut E)
    ensures shows { (bytes : List ℕ) → ConsoleCounts console.old bytes →
        ConsoleCounts console.new (bytes ++ console_byte ending) }
    ensures emits { Emits E.gave e.old e.new (shown_each (console_byte ending)) }
{
    if let Kernel::Put(b) = ending {
        put_counted(console, b);
        e.console(b);
    }
}
