//! The bits that each register has.

use crate::checks::{holds, same};
use cloak_base::Mode;
use rv_traps::Csrs;

/// Each register with what it keeps of a write of all ones (privileged manual, the fields of each register
/// on RV32; of `sip` STIP is not writable from S mode).
static KEPT: [(u32, u32); 9] = [
    (0x100, 0x000c_0122), // sstatus: SIE, SPIE, SPP, SUM, MXR
    (0x104, 0x0000_0020), // sie: STIE
    (0x105, 0xffff_fffc), // stvec: MODE is 0
    (0x140, 0xffff_ffff), // sscratch
    (0x141, 0xffff_fffc), // sepc: instructions are 4 bytes
    (0x142, 0xffff_ffff), // scause
    (0x143, 0xffff_ffff), // stval
    (0x144, 0x0000_0000), // sip
    (0x180, 0xffff_ffff), // satp
];

#[test]
fn keeps_the_bits_that_there_are(rt: HostRuntime) {
    for (number, kept) in &KEPT {
        let mut csrs = Csrs::new();
        same(&rt, &csrs.read(*number), &Some(0), *number);
        holds(&rt, csrs.write(*number, u32::MAX), *number);
        same(&rt, &csrs.read(*number), &Some(*kept), *number);
    }
}

/// What sstatus, scause and stval hold.
fn read(csrs: &Csrs) -> [u32; 3] {
    [
        csrs.read(0x100).unwrap_or(1),
        csrs.read(0x142).unwrap_or(1),
        csrs.read(0x143).unwrap_or(1),
    ]
}

/// A trap from U mode with interrupts on, another within it, and the two returns.
#[test]
fn returns_to_where_it_was(rt: HostRuntime) {
    let mut csrs = Csrs::new();
    let _ = csrs.write(0x105, 0x8000_0100);
    let _ = csrs.write(0x100, 0x2);
    same(
        &rt,
        &csrs.enter_trap(Mode::U, 8, 0, 0x1000),
        &0x8000_0100,
        "the trap's address",
    );
    same(&rt, &read(&csrs), &[0x20, 8, 0], "in the trap");
    let second = csrs.enter_trap(Mode::S, 13, 0x5000, 0x8000_0110);
    same(&rt, &second, &0x8000_0100, "the second trap's address");
    same(
        &rt,
        &read(&csrs),
        &[0x100, 13, 0x5000],
        "in the second trap",
    );
    same(
        &rt,
        &csrs.leave_trap(),
        &(0x8000_0110, Mode::S),
        "first return",
    );
    same(&rt, &read(&csrs)[0], &0x20, "sstatus after it");
    let _ = csrs.write(0x141, 0x1004);
    let _ = csrs.write(0x100, 0x20);
    same(&rt, &csrs.leave_trap(), &(0x1004, Mode::U), "second return");
    same(&rt, &read(&csrs)[0], &0x22, "sstatus after that");
}
