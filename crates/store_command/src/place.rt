//! Where the disk begins in the bytes of a bundle.
ghost use Rattle.std.specs.Prelude.{◌≡◌, ◌<◌, ◌^◌, length};
ghost use Rattle.std.specs.List.{flat_map};
ghost use Rattle.cloak_model.specs.Bundle.{IsInGrammar, segment_bytes};
ghost use Rattle.store_command.specs.Preparing.{disk_at};

use cloak_model::{Bundle, Segment};

/// How many bytes these segments take.
fn segments_length(segments: &[Segment]) -> usize
    requires { length (flat_map segment_bytes segments.now) < 2 ^ 32 }
    ensures { result ≡ length (flat_map segment_bytes segments.now) }
{
    let mut size = 0;
    for s in segments {
        size += 8 + s.bytes.as_slice().len();
    }
    size
}

/// Where the disk begins: after the header, the schedule and the segments.
pub(crate) fn disk_place(bundle: &Bundle) -> usize
    requires { IsInGrammar bundle.now }
    ensures { result ≡ disk_at bundle.now }
{
    let kernel = &bundle.kernel;
    40 + kernel.schedule.as_slice().len() + segments_length(kernel.segments.as_slice())
}
