ghost use Rattle.std.specs.Prelude.{◌≡◌, ℕ, List};
ghost use Rattle.aes_block.specs.Bytes.{IsBytes};
ghost use Rattle.aes_block.specs.Word.{block_of_words};
ghost use Rattle.aes_block.specs.Cipher.{encrypted};

use crate::words::{
    add_words, inverse_round, last_inverse_round, last_round, next_key, round, unmixed_key,
    words_of, write_words,
};
use std::marker::Model;

/// The round keys of one key. A contract sees it as the key: a list of 16 bytes.
#[derive(Drop)]
pub struct KeySchedule {
    keys: [[u32; 4]; 11],
    inverse_keys: [[u32; 4]; 9],
}

impl Model for KeySchedule {
    ghost use Rattle.std.specs.Prelude.{List, ℕ};
    ghost use Rattle.aes_block.specs.KeySchedule.{IsExpanded, key_at_place};

    ghost Value = { List ℕ };

    ghost view = { λ s. key_at_place s.keys 0 };

    ghost invariant = { λ s. IsExpanded s.keys s.inverse_keys };
}

impl KeySchedule {
    /// Expands the key, once for all blocks under it.
    pub fn new(key: &[u8; 16]) -> KeySchedule
        ensures { result ≡ key.now }
    {
        let mut keys = [words_of(key); 11];
        for j in 0..10 {
            keys[j + 1] = next_key(j, &keys[j]);
        }
        let mut inverse_keys = [keys[0]; 9];
        for i in 0..9 {
            inverse_keys[i] = unmixed_key(&keys[9 - i]);
        }
        KeySchedule { keys, inverse_keys }
    }

    /// Enciphers a block that is given by its words.
    #[inline(always)]
    pub fn encrypt_words(&self, s: &mut [u32; 4])
        ensures enciphered { block_of_words s.new ≡ encrypted self.now (block_of_words s.old) }
        ensures only_one { (p : List ℕ) → IsBytes 16 p →
            encrypted self.now p ≡ block_of_words s.new → p ≡ block_of_words s.old }
    {
        add_words(s, &self.keys[0]);
        for j in 0..9 {
            round(s, &self.keys[j + 1]);
        }
        last_round(s, &self.keys[10]);
    }

    /// Enciphers a block in place.
    pub fn encrypt_block(&self, b: &mut [u8; 16])
        ensures enciphered { b.new ≡ encrypted self.now b.old }
        ensures only_one { (p : List ℕ) → IsBytes 16 p → encrypted self.now p ≡ b.new → p ≡ b.old }
    {
        let mut s = words_of(b);
        self.encrypt_words(&mut s);
        write_words(&s, b);
    }

    /// Deciphers a block that is given by its words.
    // Each round on its own: in a loop LLVM would keep the state in one vector and take it apart for each look-up.
    #[inline(always)]
    pub fn decrypt_words(&self, s: &mut [u32; 4])
        ensures enciphers_back { encrypted self.now (block_of_words s.new) ≡ block_of_words s.old }
        ensures only_one { (p : List ℕ) → IsBytes 16 p →
            encrypted self.now p ≡ block_of_words s.old → block_of_words s.new ≡ p }
    {
        add_words(s, &self.keys[10]);
        inverse_round(s, &self.inverse_keys[0]);
        inverse_round(s, &self.inverse_keys[1]);
        inverse_round(s, &self.inverse_keys[2]);
        inverse_round(s, &self.inverse_keys[3]);
        inverse_round(s, &self.inverse_keys[4]);
        inverse_round(s, &self.inverse_keys[5]);
        inverse_round(s, &self.inverse_keys[6]);
        inverse_round(s, &self.inverse_keys[7]);
        inverse_round(s, &self.inverse_keys[8]);
        last_inverse_round(s, &self.keys[0]);
    }

    /// Deciphers a block in place: it becomes the one block whose encryption stood there.
    pub fn decrypt_block(&self, b: &mut [u8; 16])
        ensures enciphers_back { encrypted self.now b.new ≡ b.old }
        ensures only_one { (p : List ℕ) → IsBytes 16 p → encrypted self.now p ≡ b.old → b.new ≡ p }
    {
        let mut s = words_of(b);
        self.decrypt_words(&mut s);
        write_words(&s, b);
    }
}
