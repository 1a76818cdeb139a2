//! An item's name and fields as members of an object.
#![tactic(auto, unfolding(json::specs::Print::escape_byte))]

ghost use Rattle.cloak_model.specs.Items.{item_of};
ghost use Rattle.std.specs.Prelude.{◌≡◌, [], ◌∷◌, codes};
ghost use Rattle.std.specs.List.{flat_map};
ghost use Rattle.json.specs.Print.{escape};
ghost use Rattle.kernel_report.specs.Putting.{PutsMore, putting};
ghost use Rattle.record_json.specs.Members.{next_member, with_number, with_text};
ghost use Rattle.record_json.specs.Objects as spec;

use crate::members::{put_digest, put_number, put_six_numbers, put_text};
use cloak_base::Shown;
use cloak_model::Item;
use io_traits::Sink;
use kernel_report::lines::SoFar;
use sha2::{Digest, Sha256};

/// The name of an item.
fn put_item_name<O: Sink>(out: &mut O, so_far: SoFar, name: &str) -> SoFar
    requires { escape name.now ≡ name.now }
    ensures { PutsMore (putting O.Sink out.old so_far) (putting O.Sink out.new result)
        (next_member (with_text (codes "item") name.now)) }
{
    put_text(out, so_far, "item", name)
}

/// An item that has no fields.
fn put_bare<O: Sink>(out: &mut O, so_far: SoFar, name: &str) -> SoFar
    requires { escape name.now ≡ name.now }
    ensures { PutsMore (putting O.Sink out.old so_far) (putting O.Sink out.new result)
        (flat_map next_member (spec.named_item name.now [])) }
{
    put_item_name(out, so_far, name)
}

/// What the kernel is shown in a frame.
fn put_cipher<O: Sink>(out: &mut O, so_far: SoFar, frame: u32, bytes: &[u8; 4096]) -> SoFar
    ensures { PutsMore (putting O.Sink out.old so_far) (putting O.Sink out.new result)
        (flat_map next_member (spec.cipher_members frame bytes.now)) }
{
    let so_far = put_item_name(out, so_far, "cipher");
    let so_far = put_number(out, so_far, "frame", frame as u64);
    put_digest(out, so_far, "sha256", &Sha256::digest(bytes.as_slice()))
}

/// What a program stores where the kernel sees it.
fn put_put<O: Sink>(out: &mut O, so_far: SoFar, address: u32, width: u8, value: u32) -> SoFar
    ensures { PutsMore (putting O.Sink out.old so_far) (putting O.Sink out.new result)
        (flat_map next_member (spec.put_members address width value)) }
{
    let so_far = put_item_name(out, so_far, "put");
    let so_far = put_number(out, so_far, "address", address as u64);
    let so_far = put_number(out, so_far, "width", width as u64);
    put_number(out, so_far, "value", value as u64)
}

/// A leave.
fn put_leave<O: Sink>(out: &mut O, so_far: SoFar, shown: &Shown) -> SoFar
    ensures { PutsMore (putting O.Sink out.old so_far) (putting O.Sink out.new result)
        (flat_map next_member (spec.leave_members shown.now)) }
{
    let so_far = put_item_name(out, so_far, "leave");
    let so_far = put_number(out, so_far, "cause", shown.cause as u64);
    let so_far = put_number(out, so_far, "stval", shown.stval as u64);
    let so_far = put_number(out, so_far, "context", shown.ctx as u64);
    let so_far = put_number(out, so_far, "number", shown.number as u64);
    put_six_numbers(out, so_far, "arguments", &shown.args)
}

/// An item that a program was answered.
fn put_inward<O: Sink>(out: &mut O, so_far: SoFar, name: &str, domain: u8) -> SoFar
    requires { escape name.now ≡ name.now }
    ensures { PutsMore (putting O.Sink out.old so_far) (putting O.Sink out.new result)
        (flat_map next_member (spec.inward_item name.now domain [])) }
{
    let so_far = put_item_name(out, so_far, name);
    put_number(out, so_far, "program", domain as u64)
}

/// An item that a program was answered, with one more number.
fn put_inward_with<O: Sink>(
    out: &mut O,
    so_far: SoFar,
    name: &str,
    domain: u8,
    field: &str,
    n: u32,
) -> SoFar
    requires name { escape name.now ≡ name.now }
    requires field { escape field.now ≡ field.now }
    ensures { PutsMore (putting O.Sink out.old so_far) (putting O.Sink out.new result)
        (flat_map next_member (spec.inward_item name.now domain (with_number field.now n ∷ []))) }
{
    let so_far = put_item_name(out, so_far, name);
    let so_far = put_number(out, so_far, "program", domain as u64);
    put_number(out, so_far, field, n as u64)
}

/// A resume.
fn put_resume<O: Sink>(out: &mut O, so_far: SoFar, domain: u8, ctx: u32, answer: u32) -> SoFar
    ensures { PutsMore (putting O.Sink out.old so_far) (putting O.Sink out.new result)
        (flat_map next_member (spec.resume_members domain ctx answer)) }
{
    let so_far = put_item_name(out, so_far, "resume");
    let so_far = put_number(out, so_far, "program", domain as u64);
    let so_far = put_number(out, so_far, "context", ctx as u64);
    put_number(out, so_far, "answer", answer as u64)
}

/// The name and the fields of an item.
#[tactic(auto, unfolding(crate::specs::Objects::item_members, json::specs::Print::escape_byte))]
pub fn put_item_members<O: Sink>(out: &mut O, so_far: SoFar, item: &Item<'_>) -> SoFar
    ensures { PutsMore (putting O.Sink out.old so_far) (putting O.Sink out.new result)
        (flat_map next_member (spec.item_members (item_of item.now))) }
{
    match item {
        Item::Cipher { frame, bytes } => put_cipher(out, so_far, *frame, bytes),
        Item::Put {
            address,
            width,
            value,
        } => put_put(out, so_far, *address, *width, *value),
        Item::Leave(shown) => put_leave(out, so_far, shown),
        Item::Step { .. } => put_bare(out, so_far, "step"),
        Item::Close { .. } => put_bare(out, so_far, "close"),
        Item::End => put_bare(out, so_far, "end"),
        Item::Ok { domain } => put_inward(out, so_far, "ok", *domain),
        Item::Absent { domain, cause } => {
            put_inward_with(out, so_far, "absent", *domain, "cause", *cause)
        }
        Item::Word { domain, value } => {
            put_inward_with(out, so_far, "word", *domain, "value", *value)
        }
        Item::Timer { domain } => put_inward(out, so_far, "timer", *domain),
        Item::Resume {
            domain,
            ctx,
            answer,
        } => put_resume(out, so_far, *domain, *ctx, *answer),
        Item::Stopped { domain } => put_inward(out, so_far, "stopped", *domain),
        Item::Ended { domain } => put_inward(out, so_far, "ended", *domain),
    }
}
