//! What many images share: a program, and two entries of a root table.

/// Its text.
#[cfg(test)]
pub const CALLS_TEXT: &str = r"
# Stores 7, loads it back, and calls number 9 of the kernel.
    addi  x10, x0, 7
    sw    x10, 0(x2)
    lw    x11, 0(x2)
    addi  x16, x0, 9                # the call's number
    lui   x17, 0x4F560
    addi  x17, x17, 8               # CALL
    ecall
";

/// Its words.
pub const CALLS: &[u32] = &[
    0x00700513, 0x00a12023, 0x00012583, 0x00900813, 0x4f5608b7, 0x00888893, 0x00000073,
];

/// Entry 1 of a root table, for the 4 MiB from 0x00400000 on: a pointer to the table in frame 2.
pub const POINTER: &[u32] = &[0x2000_0801];

/// Entry 512 of a root table, for the 4 MiB from 0x80000000 on: a leaf that gives RAM its own addresses, for the kernel
/// alone.
pub const KERNEL_LEAF: &[u32] = &[0x2000_00cf];
