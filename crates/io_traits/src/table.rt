//! Files by name, in memory.
ghost use Rattle.std.specs.Prelude.{◌≡◌, ◌++◌, [], IsOk, OnOk, OnErr};
ghost use Rattle.io_traits.specs.Memory.{bytes_of, IsThere};
ghost use Rattle.io_traits.specs.Table.{files_of};
ghost use Rattle.std.specs.FinMap.{insert};

use cloak_base::NoMemory;
use std::alloc::Global;
use std::collections::BTreeMap;

pub type FilesByName = BTreeMap<String, Vec<u8>>;

/// The bytes of a name, none if it is not there.
pub fn bytes<'a>(files: &'a FilesByName, name: &str) -> &'a [u8]
    ensures { result.now ≡ bytes_of (files_of files.now) name.now }
{
    match files.get(name) {
        Some(bytes) => bytes.as_slice(),
        None => &[],
    }
}

/// Puts a file of these bytes there, instead of any of this name.
pub fn replace(
    alloc: Global,
    files: &mut FilesByName,
    name: &str,
    bytes: &[u8],
) -> Result<(), NoMemory>
    ensures ok { OnOk result (files_of files.new ≡ insert (files_of files.old) name.now bytes.now) }
    ensures err { OnErr result (files_of files.new ≡ files_of files.old) }
{
    let key = String::from_str(alloc, name)?;
    let value = Vec::from_slice(alloc, bytes)?;
    files.insert(key, value)?;
    Ok(())
}

/// Empties a file, or makes it if it is missing.
pub fn empty(alloc: Global, files: &mut FilesByName, name: &str) -> Result<(), NoMemory>
    ensures ok { OnOk result (files_of files.new ≡ insert (files_of files.old) name.now []) }
    ensures err { OnErr result (files_of files.new ≡ files_of files.old) }
    ensures there { IsThere (files_of files.old) name.now → IsOk result }
{
    match files.get_mut(name) {
        Some(file) => {
            file.clear();
            Ok(())
        }
        None => replace(alloc, files, name, &[]),
    }
}

/// Adds a piece at the end of a file, which it makes if it is missing. No bytes for a file that is there need no
/// memory.
pub fn extend(
    alloc: Global,
    files: &mut FilesByName,
    name: &str,
    bytes: &[u8],
) -> Result<(), NoMemory>
    ensures ok { let old = files_of files.old in
        OnOk result (files_of files.new ≡ insert old name.now (bytes_of old name.now ++ bytes.now)) }
    ensures err { OnErr result (files_of files.new ≡ files_of files.old) }
    ensures there { IsThere (files_of files.old) name.now → bytes.now ≡ [] → IsOk result }
{
    match files.get_mut(name) {
        Some(file) => {
            file.extend_from_slice(bytes)?;
            Ok(())
        }
        None => replace(alloc, files, name, bytes),
    }
}
