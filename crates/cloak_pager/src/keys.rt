ghost use Rattle.std.specs.Prelude.{◌≡◌, ◌<◌, All};
ghost use Rattle.cloak_model.specs.Sealing.{Chained};
ghost use Rattle.cloak_model.specs.Ledger.{domain_key, key_in};

use aes_block::KeySchedule;
use cloak_base::PageId;
use std::marker::Model;

/// The keys by their numbers, and for each domain the number of its key.
#[derive(Drop)]
pub(crate) struct KeyRing {
    numbered: [KeySchedule; 4],
    group: [u32; 4],
}

impl Model for KeyRing {
    ghost use Rattle.std.specs.Prelude.{◌<◌, All};
    ghost use Rattle.cloak_model.specs.Sealing.{Chained};
    ghost use Rattle.cloak_model.specs.Ledger.{Keys};

    ghost Value = { Keys };

    ghost view = { λ r. record { numbered = r.numbered; group = r.group; seal = Chained } };

    ghost invariant = { λ r. All (λ g. g < 4) r.group };
}

impl KeyRing {
    /// Expands each key, once for all pages under it.
    pub(crate) fn new(keys: [[u8; 16]; 4], group: [u32; 4]) -> KeyRing
        requires groups { All (λ g. g < 4) group }
        ensures { result ≡ record { numbered = keys; group = group; seal = Chained } }
    {
        let [first, second, third, fourth] = &keys;
        KeyRing {
            numbered: [
                KeySchedule::new(first),
                KeySchedule::new(second),
                KeySchedule::new(third),
                KeySchedule::new(fourth),
            ],
            group,
        }
    }

    /// What a page is sealed under: the key of its domain.
    pub(crate) fn of(&self, q: PageId) -> &KeySchedule
        ensures { result.now ≡ key_in self.now q }
    {
        self.of_domain(q.domain)
    }

    /// The key of a domain, and key 0 if there is no such domain.
    pub(crate) fn of_domain(&self, domain: u32) -> &KeySchedule
        ensures { result.now ≡ domain_key self.now domain }
    {
        let number = self.group.get(domain as usize).copied().unwrap_or(0);
        &self.numbered[number as usize]
    }
}
