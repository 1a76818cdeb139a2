//! AES-128 on single blocks (FIPS 197).
//!
//! A [`KeySchedule`] holds the round keys of one key, expanded once. A block and a key are 16 bytes; a block's byte in row
//! `r` and column `c` of the standard's state stands at place `r + 4c`.
//!
//! The definitions in `specs/` are the standard's own: the field of 256 elements with its product and inverse (section
//! 4), the S-box by its bits (5.1.1), the steps of a round (5.1) and the key expansion (5.2). There is none of the
//! inverse cipher: undoing is said by enciphering alone, each undone step too. The code uses tables; each is proved
//! equal to its definition at every byte.
//!
//! The layer above may rely on this: `encrypt_block` gives `encrypted key block`, and `decrypt_block` gives the one
//! block whose encryption stood there; `encrypt_words` and `decrypt_words` are the same on a block's four words, which
//! a chain of blocks keeps in registers. No call fails or takes memory. Nothing is said of the cipher's strength, nor
//! of the time that a call takes: look-ups in tables depend on secret bytes.
#![tactic(auto)]

mod cipher;
mod tables;
mod words;

pub use cipher::KeySchedule;
pub use words::{add_words, words_of, write_words};
