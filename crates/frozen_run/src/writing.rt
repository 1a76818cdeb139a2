//! The file of a frozen state is written.
ghost use Rattle.std.specs.Prelude.{◌≡◌, ◌<◌, ◌^◌, length, is_err, OnOk};
ghost use Rattle.frozen_state.specs.FrozenState.{body_bytes, frozen_bytes};
ghost use Rattle.frozen_run.specs.Writing.{Adds, AddsMore, Saves};

use crate::pen::Pen;
use crate::spelling::{Spelled, put_each};
use cloak_base::Failed;
use frozen_state::Frozen;
use io_traits::Shelf;
use sha2::{Digest, Sha256};

/// Writes all but the digest of all.
fn put_body<S: Shelf>(f: &Frozen, bundle: &[u8; 32], pen: &mut Pen<'_, '_, S>)
    requires { length f.now.recorded < 2 ^ 32 }
    ensures same_shelf { pen.new.shelf.ghost_name ≡ pen.old.shelf.ghost_name }
    ensures gives { AddsMore S.Shelf pen.old pen.new (body_bytes f.now bundle.now) }
{
    pen.put(b"CLOAKFRZ");
    f.steps.put_to(pen);
    pen.put(&f.draws.to_le_bytes());
    pen.put(bundle);
    pen.put(&f.refused.to_le_bytes());
    put_each(f.domains.as_slice(), pen);
    put_each(f.harts.as_slice(), pen);
    pen.put(f.disk.as_slice());
    put_each(f.frames.as_slice(), pen);
    let recorded = f.recorded.as_slice();
    (recorded.len() as u32).put_to(pen);
    put_each(recorded, pen);
}

/// Adds the bytes of a state to the file of this name.
fn add_frozen<S: Shelf>(f: &Frozen, bundle: &[u8; 32], s: &mut S, name: &str) -> Result<(), Failed>
    requires { length f.now.recorded < 2 ^ 32 }
    ensures { Adds S.Shelf (is_err result) name.now s.old s.new (frozen_bytes f.now bundle.now) }
{
    let mut pen = Pen {
        shelf: s,
        name,
        digest: Sha256::new(),
        failed: false,
    };
    put_body(f, bundle, &mut pen);
    let Pen {
        shelf,
        digest,
        failed,
        ..
    } = pen;
    if failed {
        return Err(Failed);
    }
    shelf.append(name, &digest.finalize())
}

/// Makes the file of this name that of a state, of an image whose file has this digest, and writes all of it out.
pub fn write_frozen<S: Shelf>(
    f: &Frozen,
    bundle: &[u8; 32],
    s: &mut S,
    name: &str,
) -> Result<(), Failed>
    requires { length f.now.recorded < 2 ^ 32 }
    ensures saves { Saves S.Shelf (is_err result) name.now s.old s.new (frozen_bytes f.now bundle.now) }
    ensures settled { OnOk result (S.is_settled s.new) }
{
    s.begin(name)?;
    add_frozen(f, bundle, s, name)?;
    s.flush()
}
