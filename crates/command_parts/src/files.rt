//! The bytes of files.
ghost use Rattle.std.specs.Prelude.{◌≡◌, ◌≤◌, ℕ, min, List, [], length, take, vec_capacity, IfOk, IfErr, IfSome};
ghost use Rattle.io_traits.specs.Told.{SameFiles};
ghost use Rattle.command_parts.specs.Files.{ReadsFile, TellsUnread};

use crate::refusal::Refusal;
use io_traits::Shelf;
use std::alloc::Global;

/// The number of a file's bytes. A pipe has 0.
fn file_size<S: Shelf>(shelf: &mut S, name: &str) -> Result<u64, Refusal>
    requires { S.is_settled shelf.old }
    ensures size { IfOk result (λ n. IfSome (S.held shelf.old name.now) (λ bytes. n ≡ length bytes)) }
    ensures files { SameFiles (S.held shelf.old) (S.held shelf.new) }
    ensures reading { ReadsFile (S.reading_faults shelf.old) (S.reading_faults shelf.new) result }
    ensures unread { IfErr result (TellsUnread (S.unread shelf.new) name.now) }
    ensures writing { S.writing_faults shelf.new ≡ S.writing_faults shelf.old }
    ensures settled { S.is_settled shelf.new }
{
    match shelf.size(name) {
        Ok(size) => Ok(size),
        Err(_) => Err(Refusal::ReadFault),
    }
}

/// How many bytes are read of a file of this size. A pipe, whose size is told as 0, is read to its end.
#[tactic(auto, using(std::proofs::lemmas::List::take_min))]
fn count_wanted(size: u64, limit: u64) -> u64
    ensures most { result ≤ limit }
    ensures pipe { size ≡ 0 → result ≡ limit }
    ensures expected { min limit size ≤ result }
    ensures enough { (bytes : List ℕ) → size ≡ length bytes → take result bytes ≡ take limit bytes }
{
    if size == 0 { limit } else { limit.min(size) }
}

/// Room for the bytes that are expected of a file of this size, and for no more than `limit`, however large it is.
fn room_for(alloc: Global, size: u64, limit: u64) -> Result<Vec<u8>, Refusal>
    ensures empty { IfOk result (λ v. v.items ≡ []) }
    ensures room { IfOk result (λ v. vec_capacity v ≡ min limit size) }
    ensures wanting { IfErr result (λ refusal. refusal ≡ Refusal.NoMemory) }
{
    match Vec::with_capacity(alloc, limit.min(size) as usize) {
        Ok(bytes) => Ok(bytes),
        Err(_) => Err(Refusal::NoMemory),
    }
}

/// The first bytes of a file, as many as `count` or, if it has fewer, all. They are put into `bytes`, which has room
/// for no more.
fn read_into<S: Shelf>(
    shelf: &mut S,
    name: &str,
    mut bytes: Vec<u8>,
    count: u64,
) -> Result<Vec<u8>, Refusal>
    requires settled { S.is_settled shelf.old }
    requires empty { bytes.items ≡ [] }
    requires room { vec_capacity bytes ≤ count }
    ensures bytes { IfOk result (λ v. IfSome (S.held shelf.old name.now) (λ bytes. v.items ≡ take count bytes)) }
    ensures fits { IfOk result (λ v. length v.items ≤ count) }
    ensures files { SameFiles (S.held shelf.old) (S.held shelf.new) }
    ensures reading { ReadsFile (S.reading_faults shelf.old) (S.reading_faults shelf.new) result }
    ensures unread { IfErr result (TellsUnread (S.unread shelf.new) name.now) }
    ensures writing { S.writing_faults shelf.new ≡ S.writing_faults shelf.old }
    ensures settled { S.is_settled shelf.new }
{
    let mut piece = [0; 65536];
    while (bytes.len() as u64) < count {
        let n = match shelf.read_at(name, bytes.len() as u64, &mut piece) {
            Ok(n) => n,
            Err(_) => return Err(Refusal::ReadFault),
        };
        if n == 0 {
            break;
        }
        let left = count as usize - bytes.len();
        if bytes.extend_from_slice(&piece[..n.min(left)]).is_err() {
            return Err(Refusal::NoMemory);
        }
    }
    Ok(bytes)
}

/// The first bytes of a file, as many as `limit` or, if it has fewer, all.
pub fn read_front<S: Shelf>(
    alloc: Global,
    shelf: &mut S,
    name: &str,
    limit: u64,
) -> Result<Vec<u8>, Refusal>
    requires { S.is_settled shelf.old }
    ensures bytes { IfOk result (λ v. IfSome (S.held shelf.old name.now) (λ bytes. v.items ≡ take limit bytes)) }
    ensures fits { IfOk result (λ v. length v.items ≤ limit) }
    ensures files { SameFiles (S.held shelf.old) (S.held shelf.new) }
    ensures reading { ReadsFile (S.reading_faults shelf.old) (S.reading_faults shelf.new) result }
    ensures unread { IfErr result (TellsUnread (S.unread shelf.new) name.now) }
    ensures writing { S.writing_faults shelf.new ≡ S.writing_faults shelf.old }
    ensures settled { S.is_settled shelf.new }
{
    let size = match file_size(shelf, name) {
        Ok(size) => size,
        Err(refusal) => return Err(refusal),
    };
    let room = room_for(alloc, size, limit)?;
    read_into(shelf, name, room, count_wanted(size, limit))
}
