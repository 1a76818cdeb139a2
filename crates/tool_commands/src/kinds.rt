//! Kinds of items by their names.
ghost use Rattle.std.specs.Prelude.{◌≡◌, map};
ghost use Rattle.tool_commands.specs.KindNames as spec;

use record_text::Kinds;

/// The kinds of a name, if it has some.
fn kinds_named(name: &str) -> Option<Kinds>
    ensures { result ≡ spec.kinds_named name.now }
{
    match name {
        "cipher" => Some(Kinds::CIPHER),
        "put" => Some(Kinds::PUT),
        "leave" => Some(Kinds::LEAVE),
        "ok" => Some(Kinds::OK),
        "absent" => Some(Kinds::ABSENT),
        "word" => Some(Kinds::WORD),
        "timer" => Some(Kinds::TIMER),
        "resume" => Some(Kinds::RESUME),
        "stopped" => Some(Kinds::STOPPED),
        "ended" => Some(Kinds::ENDED),
        "outward" => Some(Kinds::OUTWARD),
        "inward" => Some(Kinds::INWARD),
        _ => None,
    }
}

/// These kinds and those.
fn joined(a: Kinds, b: Kinds) -> Kinds
    ensures { result ≡ spec.joined_kinds a b }
{
    Kinds {
        cipher: a.cipher | b.cipher,
        put: a.put | b.put,
        leave: a.leave | b.leave,
        ok: a.ok | b.ok,
        absent: a.absent | b.absent,
        word: a.word | b.word,
        timer: a.timer | b.timer,
        resume: a.resume | b.resume,
        stopped: a.stopped | b.stopped,
        ended: a.ended | b.ended,
    }
}

/// The kinds of all names, if each has some.
pub fn kinds_of_names(names: &[&str]) -> Option<Kinds>
    ensures { result ≡ spec.kinds_of_names (map (λ name. name.now) names.now) }
{
    let mut kinds = Kinds::NONE;
    for name in names {
        match kinds_named(name) {
            Some(more) => kinds = joined(kinds, more),
            None => return None,
        }
    }
    Some(kinds)
}
