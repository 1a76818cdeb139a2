//! The top call.
ghost use Rattle.std.specs.Prelude.{◌<◌, ◌-◌, ◌^◌, map, string_bytes};
ghost use Rattle.command_words.specs.Command as spec;
ghost use Rattle.cloak_commands.specs.Answering.{Answers, KeepsOthers};
ghost use Rattle.cloak_commands.specs.BundleFirst.{JudgesBundleFirst};
ghost use Rattle.command_parts.specs.Outside.{outside};
ghost use Rattle.completeness.specs.Complete.{IsComplete};

use command_parts::{Refusal, Status, refuse};
use command_words::{Request, read_words};
use frozen_commands::{freeze_command, thaw_command};
use image_commands::{demo_command, gen_command, upgrade_command};
use io_traits::{Shelf, Sink};
use read_back::{solo_command, solo_over_command, view_command};
use run_command::run_command;
use stats_command::stats_command;
use std::alloc::Global;
use store_command::store_command;

/// Reads the words, and hands what they ask for to its command.
fn carry_out<S: Shelf, O: Sink>(
    alloc: Global,
    words: &Vec<String>,
    shelf: &mut S,
    out: &mut O,
) -> Status
    requires settled { S.is_settled shelf.old }
    requires reading { S.reading_faults shelf.old < 2 ^ 64 - 1 }
    requires writing { S.writing_faults shelf.old < 2 ^ 64 - 1 }
    requires output { O.faults out.old < 2 ^ 64 - 1 }
    ensures answers { Answers (spec.words_of (map string_bytes words.now.items))
        (outside S.Shelf O.Sink shelf.old out.old) (outside S.Shelf O.Sink shelf.new out.new) result }
    ensures kept { KeepsOthers (spec.words_of (map string_bytes words.now.items)) result
        (S.held shelf.old) (S.held shelf.new) }
{
    let request = match read_words(alloc, words.as_slice()) {
        Ok(request) => request,
        Err(_) => return refuse(out, &Refusal::NoMemory),
    };
    match request {
        Request::Faulty(fault) => refuse(out, &Refusal::Usage(fault)),
        Request::Run(run) => run_command(alloc, &run, shelf, out),
        Request::View(files) => view_command(alloc, &files, shelf, out),
        Request::Solo(solo) => solo_command(alloc, &solo, shelf, out),
        Request::SoloOver(over) => solo_over_command(alloc, &over, shelf, out),
        Request::Gen(image) => gen_command(alloc, image.number, image.bundle, shelf, out),
        Request::Demo(demo) => demo_command(alloc, demo.number, demo.steps, out),
        Request::Stats(stats) => stats_command(alloc, &stats, shelf, out),
        Request::Upgrade(upgrade) => {
            upgrade_command(alloc, upgrade.old_name, upgrade.new_name, shelf, out)
        }
        Request::Store(store) => store_command(alloc, &store, shelf, out),
        Request::Freeze(freeze) => freeze_command(alloc, &freeze, shelf, out),
        Request::Thaw(thaw) => thaw_command(alloc, &thaw, shelf, out),
    }
}

/// Does what the words ask for, with the files of a shelf on which nothing is gathered, and shows it.
pub fn cloak<S: Shelf, O: Sink>(
    alloc: Global,
    words: &Vec<String>,
    shelf: &mut S,
    out: &mut O,
) -> Status
    requires settled { S.is_settled shelf.old }
    requires reading { S.reading_faults shelf.old < 2 ^ 64 - 1 }
    requires writing { S.writing_faults shelf.old < 2 ^ 64 - 1 }
    requires output { O.faults out.old < 2 ^ 64 - 1 }
    ensures answers { Answers (spec.words_of (map string_bytes words.now.items))
        (outside S.Shelf O.Sink shelf.old out.old) (outside S.Shelf O.Sink shelf.new out.new) result }
    ensures kept { KeepsOthers (spec.words_of (map string_bytes words.now.items)) result
        (S.held shelf.old) (S.held shelf.new) }
    ensures complete { IsComplete (spec.words_of (map string_bytes words.now.items)) result
        (outside S.Shelf O.Sink shelf.old out.old) (outside S.Shelf O.Sink shelf.new out.new) }
    ensures bundle_first { JudgesBundleFirst (spec.words_of (map string_bytes words.now.items)) result
        (outside S.Shelf O.Sink shelf.old out.old) (outside S.Shelf O.Sink shelf.new out.new) }
{
    carry_out(alloc, words, shelf, out)
}
