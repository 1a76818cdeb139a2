//! Writes a hostile image: `hostile_images NUMBER FILE` writes the image of this number (0 to 23) to this file.
//!
//! The exit status is 0 if it was written, 2 if the words are different, 5 if the file could not be written, and 6 if
//! there is not enough memory.
#![tactic(auto)]

ghost use Rattle.std.specs.Prelude.{◌≡◌, ◌<◌, IfOk, IfSome};
ghost use Rattle.cloak_model.specs.Bundle.{bundle_bytes};
ghost use Rattle.hostile_kernels.specs.Images.{hostile_image};

use cloak_base::NoMemory;
use guest_bundle::write;
use hostile_kernels::{IMAGES, hostile};
use std::alloc::Global;
use std::process::ExitCode;
use std::{env, fs};

/// What the program says of words that it does not take.
const USAGE: &[u8] = b"the words are a number, 0 to 23, and the name of a file\n";

/// The bytes of the file of a number's image, in version 2.
fn file_bytes(alloc: Global, number: u32) -> Result<Vec<u8>, NoMemory>
    requires { number < IMAGES }
    ensures { IfOk result (λ bytes. bytes.items ≡ bundle_bytes 2 (hostile_image number)) }
{
    let image = hostile(alloc, number)?;
    write(alloc, &image)
}

/// Writes an image, and returns the exit status.
fn write_image(rt: &HostRuntime, number: u32, file: &str) -> u8
    requires { number < IMAGES }
{
    match file_bytes(rt.alloc(), number) {
        Ok(bytes) if fs::write(rt, file, bytes.as_slice()).is_ok() => 0,
        Ok(_) => 5,
        Err(_) => 6,
    }
}

/// The number of an image, if the word is one.
fn image_number(word: &str) -> Option<u32>
    ensures { IfSome result (λ number. number < IMAGES) }
{
    let number = word.parse::<u32>().ok()?;
    (number < IMAGES).then_some(number)
}

/// Does what the words ask for, or returns nothing if they ask for nothing.
fn obey(rt: &HostRuntime) -> Option<u8> {
    let mut words = env::args(rt).ok()?;
    words.next();
    let number = image_number(words.next()?.as_str())?;
    let file = words.next()?;
    match words.next() {
        None => Some(write_image(rt, number, file.as_str())),
        Some(_) => None,
    }
}

fn main(rt: HostRuntime) -> ExitCode {
    match obey(&rt) {
        Some(status) => ExitCode::from(status),
        None => {
            let shown = rt.write_all(USAGE);
            ExitCode::from(if shown.is_ok() { 2 } else { 5 })
        }
    }
}
