//! A law on the definitions alone (`cloak_model`, `specs/Run`): the disk keeps its size. After the opening, after each
//! step and as the run is closed it has as many bytes as the disk of the image. So what a transfer writes to it is a
//! block, and a bundle with the disk of the end is a bundle again. The law holds of the run of every bundle, also of one
//! that no file spells, and from whatever beginning.
//!
//! No body changes a law, so there is no wrong body to refuse here. These changed definitions were tried on a copy,
//! and with none of them did the proof go through: the disk keeps its bytes; a block that is written takes the place
//! of 4092 bytes; WRITE accepts the block after the last one.
#![tactic(auto)]

ghost use Rattle.disk_law.specs.Disks.{DisksStay};

/// The disk keeps its size. It does nothing: its contract is the law.
pub fn law_of_disks()
    ensures { DisksStay }
{}
