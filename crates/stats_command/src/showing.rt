//! The lines of a run's counts.
ghost use Rattle.io_traits.specs.Sinks.{PutsTo};
ghost use Rattle.stats_command.specs.Showing.{stats_lines};

use cloak_base::{Failed, Stop};
use cloak_machine::{put_number, put_stop_line};
use io_traits::Sink;
use shadow_fold::ShadowCounts;

/// Shows why a run ended, and its counts. One that failed has shown a front of it.
pub fn show_stats<O: Sink>(out: &mut O, stop: &Stop, counts: &ShadowCounts) -> Result<(), Failed>
    ensures { PutsTo O.Sink out.old out.new (stats_lines stop.now counts.now) result }
{
    let so_far = put_stop_line(out, Ok(()), stop);
    let so_far = put_number(out, so_far, b"accesses ", counts.accesses);
    let so_far = put_number(out, so_far, b"misses ", counts.misses);
    put_number(out, so_far, b"flushes ", counts.flushes)
}
