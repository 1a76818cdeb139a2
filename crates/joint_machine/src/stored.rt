//! The opening of a joint run over the files of an earlier one.
ghost use Rattle.std.specs.Prelude.{◌≡◌, [], IfOk};
ghost use Rattle.cloak_model.specs.Bundle.{IsInGrammar};
ghost use Rattle.cloak_model.specs.StoredFiles.{IsTable};

use crate::filing::add_files;
use crate::joint::Joint;
use crate::opened::StoredFault;
use crate::placing::place_programs;
use crate::starting::{joint_of, start_parts};
use cloak_model::{KernelImage, Program, Sequence};
use io_traits::Stream;
use protect_meta::FileTable;
use std::alloc::Global;

impl Joint {
    ghost use Rattle.joint_machine.specs.Standing.{harts_of, AllOutside, OpensStoredAs};

    /// The joint machine of a guest image as its run begins over the files of an earlier one, of which the table tells.
    /// Each page of a program takes a draw of the stream, and no key does: the keys are those of the earlier run. A file
    /// that finds no room goes before a draw that is missing. The memory of the image is taken over or given back as `open`
    /// does, and no more is taken.
    pub fn open_stored(
        alloc: Global,
        kernel: KernelImage,
        programs: Sequence<Program>,
        s: Stream,
        keys: [[u8; 16]; 4],
        files: &FileTable,
    ) -> Result<Joint, StoredFault>
        requires image { IsInGrammar (record { kernel = kernel; programs = programs }) }
        requires table { IsTable files.now }
        ensures opens { OpensStoredAs (record { kernel = kernel; programs = programs }) keys s files.now result }
        ensures harts { IfOk result (λ joint. harts_of joint ≡ kernel.harts) }
        ensures outside { IfOk result (λ joint. AllOutside joint) }
        ensures empty { IfOk result (λ joint. joint.memory.shadows.live ≡ []) }
    {
        let mut parts = start_parts(alloc, kernel, programs.as_slice(), keys, s)?;
        let placed = place_programs(&mut parts.memory, programs);
        match add_files(&mut parts.domains, &mut parts.memory, files) {
            Ok(()) => {}
            Err(domain) => return Err(StoredFault::NoRoom(domain)),
        }
        if !placed {
            return Err(StoredFault::NoRandom);
        }
        Ok(joint_of(parts))
    }
}
