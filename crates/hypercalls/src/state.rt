//! The digest of a domain's state (`cloak_model`, `specs/DomainState`).
ghost use Rattle.std.specs.Prelude.{◌≡◌};
ghost use Rattle.sha2.specs.Sha256.{sha256};
ghost use Rattle.cloak_model.specs.DomainState as spec;

use crate::control::Control;
use domain_page::write_state;
use sha2::{Digest, Sha256};

/// The digest of slots, spaces and resources.
pub fn state_digest(d: &Control) -> [u8; 32]
    ensures { result ≡ sha256 (spec.state_bytes d.now) }
{
    let mut page = [0; 4096];
    let end = write_state(&d.contexts, &d.resources, &mut page);
    Sha256::digest(&page[..end])
}
