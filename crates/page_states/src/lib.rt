//! The states of a cloaked page's frame, and the ways between them: opened from what was shown, first used, changed,
//! sealed again as it was shown, newly sealed, and wiped.
//!
//! A page is shown as its AES-128-CBC ciphertext (SP 800-38A, 6.2); what was shown is known by its SHA-256 digest
//! (FIPS 180-4).
//!
//! The layer above may rely on this: a frame is opened exactly if its bytes have the digest of the metadata, and then
//! holds the one page that seals to them; sealing shows the ciphertext under the IV that was given, and returns the
//! metadata of what it showed; no other frame is touched, and no call takes memory. Which metadata and which IV are
//! right is up to the layer above.
#![tactic(auto)]

mod transitions;

pub use transitions::{change, first_page, open_page, reseal, seal, wipe};
