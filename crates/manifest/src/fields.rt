//! What stands at the keys of a table.
ghost use Rattle.std.specs.Prelude.{◌≡◌, ◌≤◌, ◌<◌, ◌%◌, length, IfOk, IfErr, IfSome, option_map};
ghost use Rattle.toml.specs.Data.{as_integer, as_table};
ghost use Rattle.toml.specs.View.{view, items_view};
ghost use Rattle.manifest.specs.Keys.{stands_at};
ghost use Rattle.manifest.specs.Fields as spec;
ghost use Rattle.manifest.specs.Fields.{Shows};
ghost use Rattle.manifest.specs.Faults.{ReturnsRead, only_keys};
ghost use Rattle.manifest.specs.Reading.{IsNoReadFault};

use crate::fault::{FaultyKey, KeyFault, PackError, PackFault};
use crate::key::{Key, ManifestTable};
use std::alloc::Global;
use toml::Value;

/// A table of a manifest, with its place there.
#[derive(Clone, Copy)]
pub struct NamedTable<'a> {
    pub part: ManifestTable,
    pub table: &'a Value,
}

impl<'a> NamedTable<'a> {
    /// What is wrong at a key.
    pub fn fault(self, key: Key, wrong: KeyFault) -> FaultyKey
        ensures { result ≡ spec.wrong_at self.entry.part key wrong }
    {
        FaultyKey {
            part: self.part,
            key,
            wrong,
        }
    }

    /// What stands at a key.
    pub fn value(self, key: Key) -> Option<&'a Value>
        ensures { option_map (λ v. view v.now) result ≡ stands_at key (view self.entry.table.now) }
    {
        self.table.get(key.name())
    }

    /// None of these keys stands beside `elf`.
    #[tactic(auto, unfolding(crate::specs::Fields::alone_at))]
    pub fn stands_alone(self, others: &[Key]) -> Result<(), FaultyKey>
        ensures { result ≡ spec.alone_at self.entry.part (view self.entry.table.now) others.now }
    {
        for key in others {
            if self.value(*key).is_some() {
                return Err(self.fault(*key, KeyFault::BesideElf));
            }
        }
        Ok(())
    }

    /// The number from `least` to `most` at a key, if something stands there.
    #[tactic(auto, unfolding(crate::specs::Fields::number_at))]
    pub fn number(self, key: Key, least: u32, most: u32) -> Result<Option<u32>, FaultyKey>
        ensures range { IfOk result (λ found. IfSome found (λ n. (least ≤ n) × (n ≤ most))) }
        ensures read { result ≡ spec.number_at self.entry.part (view self.entry.table.now) key (record { low = least; high = most }) }
    {
        let Some(value) = self.value(key) else {
            return Ok(None);
        };
        match in_range(value, least, most) {
            Some(number) => Ok(Some(number)),
            None => Err(self.fault(key, KeyFault::NoNumber(least, most))),
        }
    }

    /// The number at a key that is needed.
    #[tactic(auto, unfolding(crate::specs::Fields::needed_at))]
    pub fn needed_number(self, key: Key, least: u32, most: u32) -> Result<u32, FaultyKey>
        ensures range { IfOk result (λ n. (least ≤ n) × (n ≤ most)) }
        ensures read { result ≡ spec.needed_at self.entry.part (view self.entry.table.now) key (record { low = least; high = most }) }
    {
        match self.number(key, least, most)? {
            Some(number) => Ok(number),
            None => Err(self.fault(key, KeyFault::Missing)),
        }
    }

    /// The number at a key, or another one if nothing stands there.
    #[tactic(auto, unfolding(crate::specs::Fields::number_or_at))]
    pub fn number_or(
        self,
        key: Key,
        least: u32,
        most: u32,
        otherwise: u32,
    ) -> Result<u32, FaultyKey>
        requires least { least ≤ otherwise }
        requires most { otherwise ≤ most }
        ensures range { IfOk result (λ n. (least ≤ n) × (n ≤ most)) }
        ensures read { result ≡ spec.number_or_at self.entry.part (view self.entry.table.now) key (record { low = least; high = most }) otherwise }
    {
        match self.number(key, least, most)? {
            Some(number) => Ok(number),
            None => Ok(otherwise),
        }
    }

    /// The name of a file at a key, if something stands there.
    #[tactic(auto, unfolding(crate::specs::Fields::name_at))]
    pub fn file_name(self, key: Key) -> Result<Option<&'a str>, FaultyKey>
        ensures { Shows (option_map (λ name. name.now)) result
            (spec.name_at self.entry.part (view self.entry.table.now) key) }
    {
        let Some(value) = self.value(key) else {
            return Ok(None);
        };
        match value.as_str() {
            Some(name) => Ok(Some(name)),
            None => Err(self.fault(key, KeyFault::NoName)),
        }
    }

    /// The elements of the list at a key; none if nothing stands there.
    #[tactic(auto, unfolding(crate::specs::Fields::list_at))]
    pub fn list(self, key: Key) -> Result<&'a [Value], FaultyKey>
        ensures { Shows (λ values. items_view values.now) result
            (spec.list_at self.entry.part (view self.entry.table.now) key) }
    {
        let Some(value) = self.value(key) else {
            return Ok(&[]);
        };
        match value.as_array() {
            Some(array) => Ok(array.as_slice()),
            None => Err(self.fault(key, KeyFault::NoList)),
        }
    }

    /// The elements of the list at a key, at most `most`.
    #[tactic(auto, using(crate::proofs::Counted::count_of_view), unfolding(crate::specs::Fields::short_list_at))]
    pub fn short_list(self, key: Key, most: u32) -> Result<&'a [Value], FaultyKey>
        ensures list { Shows (λ values. items_view values.now) result
            (spec.short_list_at self.entry.part (view self.entry.table.now) key most) }
        ensures short { IfOk result (λ values. length values.now ≤ most) }
    {
        let values = self.list(key)?;
        if values.len() > most as usize {
            return Err(self.fault(key, KeyFault::TooMany(most)));
        }
        Ok(values)
    }

    /// The first key of the table that is none of these.
    #[tactic(auto, unfolding(crate::specs::Fields::other_key))]
    fn other_key(self, keys: &[Key]) -> Option<&'a str>
        ensures { option_map (λ name. name.now) result
            ≡ spec.other_key keys.now (as_table (view self.entry.table.now)) }
    {
        let Some(table) = self.table.as_table() else {
            return None;
        };
        for (name, _value) in table.iter() {
            if !is_among(keys, name.as_str()) {
                return Some(name.as_str());
            }
        }
        None
    }

    /// The table has no keys but these.
    #[tactic(auto, unfolding(crate::specs::Faults::only_keys))]
    pub fn has_only(self, alloc: Global, keys: &[Key]) -> Result<(), PackError>
        ensures read { ReturnsRead (λ x. x)
            (λ r. r ≡ only_keys self.entry.part keys.now (view self.entry.table.now)) result }
        ensures no_read { IfErr result IsNoReadFault }
    {
        let Some(name) = self.other_key(keys) else {
            return Ok(());
        };
        let name = String::from_str(alloc, name)?;
        Err(PackError::Faulty(PackFault::UnknownKey {
            part: self.part,
            name,
        }))
    }
}

/// One of these keys is written so.
fn is_among(keys: &[Key], name: &str) -> bool
    ensures { result ≡ spec.is_among keys.now name.now }
{
    for key in keys {
        if key.name() == name {
            return true;
        }
    }
    false
}

/// The number from `least` to `most` that a value is.
#[tactic(auto, unfolding(crate::specs::Fields::number_from))]
pub fn in_range(value: &Value, least: u32, most: u32) -> Option<u32>
    ensures range { IfSome result (λ n. (least ≤ n) × (n ≤ most)) }
    ensures read { result ≡ spec.number_from (record { low = least; high = most }) (as_integer (view value.now)) }
{
    let number = value.as_integer()?;
    match u32::try_from(number) {
        Ok(number) if least <= number && number <= most => Some(number),
        _ => None,
    }
}

/// The number, if it is a multiple of another one.
#[tactic(auto, unfolding(crate::specs::Fields::multiple_at))]
pub fn expect_multiple(
    place: NamedTable<'_>,
    key: Key,
    of: u32,
    number: u32,
) -> Result<u32, FaultyKey>
    requires { 0 < of }
    ensures read { result ≡ spec.multiple_at place.entry.part key of number }
    ensures multiple { IfOk result (λ n. (n ≡ number) × (n % of ≡ 0)) }
{
    if number % of == 0 {
        Ok(number)
    } else {
        Err(place.fault(key, KeyFault::NoMultiple(of)))
    }
}
