//! The keys of a run.
ghost use Rattle.std.specs.Prelude.{◌≡◌, ◌<◌, ◌≤◌, length, map, All, None, MatchOption};
ghost use Rattle.cloak_model.specs.declared.image.Program.{Program};
ghost use Rattle.cloak_model.specs.Opening.{drawn_keys, filled_up, key_count};
ghost use Rattle.joint_machine.specs.Starting.{DrawsKeys};

use cloak_model::Program;
use io_traits::Stream;

/// How many keys a run of these programs draws: one for each number up to the greatest that a program has, and one
/// without programs.
pub(crate) fn count_keys(programs: &[Program]) -> u32
    requires { All (λ (p : Program). p.key < 4) programs.now }
    ensures value { result ≡ key_count programs.now }
    ensures few { result ≤ 4 }
{
    let mut count = 1;
    for p in programs {
        count = count.max(p.key + 1);
    }
    count
}

/// Draws this many keys, in the order of their numbers. Those that are not drawn are zeros. None if the stream has not
/// as many.
pub(crate) fn draw_keys(stream: &mut Stream, count: u32) -> Option<[[u8; 16]; 4]>
    requires { count ≤ 4 }
    ensures { MatchOption result (drawn_keys count stream.old ≡ None)
        (DrawsKeys count stream.old stream.new) }
{
    let mut keys = [[0; 16]; 4];
    for number in 0..count {
        keys[number as usize] = stream.draw()?;
    }
    Some(keys)
}

/// The number of each program's key, in the programs' order, and 0 for a program that there is not.
pub(crate) fn groups_of(programs: &[Program]) -> [u32; 4]
    requires few { length programs.now ≤ 4 }
    requires keys { All (λ (p : Program). p.key < 4) programs.now }
    ensures value { result ≡ filled_up 0 (map (λ (p : Program). p.key) programs.now) }
    ensures low { All (λ g. g < 4) result }
{
    let mut groups = [0; 4];
    for (domain, p) in programs.iter().enumerate() {
        groups[domain] = p.key;
    }
    groups
}
