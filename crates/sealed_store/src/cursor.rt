//! A body is read from its front to its end.
ghost use Rattle.std.specs.Prelude.{◌≡◌, ◌+◌, ◌≤◌, length, take, drop, slice_index, IfOk, OnOk};
ghost use Rattle.cloak_model.specs.Fields as spec;
ghost use Rattle.cloak_model.specs.Fields.{fault_in, first_in};
ghost use Rattle.cloak_model.specs.StoreFault.{any_at, page_fields, after_page};
ghost use Rattle.field_facts.specs.Faults.{fault_of};
ghost use Rattle.sealed_store.specs.Reading.{page_in};
ghost use Rattle.sealed_store.specs.Moving.{Moves};

use cloak_base::Meta;
use cloak_model::StoreFault;

/// A place in a body, from which the next field is read.
#[derive(Drop)]
pub struct Cursor<'a> {
    pub body: &'a [u8],
    pub at: usize,
}

impl Cursor<'_> {
    /// `N` bytes.
    fn bytes<const N: usize>(&mut self) -> Result<[u8; N], StoreFault>
        requires { self.old.at ≤ length self.old.body.now }
        ensures fault { fault_of result ≡ fault_in self.old.body.now (any_at self.old.at N) }
        ensures value { IfOk result (λ bytes. bytes ≡ take N (drop self.old.at self.old.body.now)) }
        ensures moves { OnOk result (Moves self.old self.new (self.old.at + N)) }
    {
        if self.body.len() - self.at < N {
            return Err(StoreFault::Form(self.at as u64));
        }
        let mut bytes = [0; N];
        bytes.copy_from_slice(&self.body[self.at..self.at + N]);
        self.at += N;
        Ok(bytes)
    }

    /// A byte.
    fn byte(&mut self) -> Result<u8, StoreFault>
        requires { self.old.at ≤ length self.old.body.now }
        ensures fault { fault_of result ≡ fault_in self.old.body.now (any_at self.old.at 1) }
        ensures value { IfOk result (λ b. b ≡ slice_index self.old.body.now self.old.at) }
        ensures moves { OnOk result (Moves self.old self.new (self.old.at + 1)) }
    {
        if self.at == self.body.len() {
            return Err(StoreFault::Form(self.at as u64));
        }
        let byte = self.body[self.at];
        self.at += 1;
        Ok(byte)
    }

    /// A number of 32 bits.
    pub fn number(&mut self) -> Result<u32, StoreFault>
        requires { self.old.at ≤ length self.old.body.now }
        ensures fault { fault_of result ≡ fault_in self.old.body.now (any_at self.old.at 4) }
        ensures value { IfOk result (λ n. n ≡ spec.number self.old.body.now self.old.at) }
        ensures moves { OnOk result (Moves self.old self.new (self.old.at + 4)) }
    {
        let bytes = self.bytes()?;
        Ok(u32::from_le_bytes(bytes))
    }

    /// What is known of a page.
    pub fn page(&mut self) -> Result<Option<Meta>, StoreFault>
        requires { self.old.at ≤ length self.old.body.now }
        ensures fault { fault_of result ≡ first_in self.old.body.now (page_fields self.old.body.now self.old.at) }
        ensures page { IfOk result (λ p. p ≡ page_in self.old.body.now self.old.at) }
        ensures moves { OnOk result (Moves self.old self.new (after_page self.old.body.now self.old.at)) }
    {
        let at = self.at;
        match self.byte()? {
            0 => Ok(None),
            1 => {
                let iv = self.bytes()?;
                let digest = self.bytes()?;
                Ok(Some(Meta { iv, digest }))
            }
            _ => Err(StoreFault::Form(at as u64)),
        }
    }
}
