//! Operands at the ends of their ranges.

ghost use Rattle.std.specs.Prelude.{◌≡◌};
ghost use Rattle.rv_isa.specs.Range.{InRange};

use crate::checks::same;
use cloak_base::Regs;
use rv_core::{Effect, effect};
use rv_isa::Instr;

/// Mnemonic, x1, x2 and the result, by the manual's sentences and its table "Semantics for division by
/// zero and division overflow"; the operands are mostly those of the RISC-V project's own tests (rv32ui and
/// rv32um).
static OPERATIONS: [(&str, u32, u32, u32); 52] = [
    ("mulh", 0xaaaa_aaab, 0x0002_fe7d, 0xffff_0081),
    ("mulh", 0xff00_0000, 0xff00_0000, 0x0001_0000),
    ("mulh", 0xffff_ffff, 0xffff_ffff, 0),
    ("mulh", 0xffff_ffff, 1, 0xffff_ffff),
    ("mulh", 0x8000_0000, 0x8000_0000, 0x4000_0000),
    ("mulhsu", 0xaaaa_aaab, 0x0002_fe7d, 0xffff_0081),
    ("mulhsu", 0x0002_fe7d, 0xaaaa_aaab, 0x0001_fefe),
    ("mulhsu", 0xff00_0000, 0xff00_0000, 0xff01_0000),
    ("mulhsu", 0xffff_ffff, 0xffff_ffff, 0xffff_ffff),
    ("mulhsu", 0x8000_0000, 0xffff_8000, 0x8000_4000),
    ("mulhsu", 1, 0xffff_ffff, 0),
    ("mulhu", 0xaaaa_aaab, 0x0002_fe7d, 0x0001_fefe),
    ("mulhu", 0xff00_0000, 0xff00_0000, 0xfe01_0000),
    ("mulhu", 0xffff_ffff, 0xffff_ffff, 0xffff_fffe),
    ("mulhu", 0x8000_0000, 0xffff_8000, 0x7fff_c000),
    ("div", 0xffff_ffec, 6, 0xffff_fffd),
    ("div", 20, 0xffff_fffa, 0xffff_fffd),
    ("div", 0xffff_ffec, 0xffff_fffa, 3),
    ("div", 7, 0, 0xffff_ffff),
    ("div", 0x8000_0000, 0, 0xffff_ffff),
    ("div", 0x8000_0000, 0xffff_ffff, 0x8000_0000),
    ("rem", 0xffff_ffec, 6, 0xffff_fffe),
    ("rem", 20, 0xffff_fffa, 2),
    ("rem", 0xffff_ffec, 0xffff_fffa, 0xffff_fffe),
    ("rem", 7, 0, 7),
    ("rem", 0x8000_0000, 0, 0x8000_0000),
    ("rem", 0x8000_0000, 0xffff_ffff, 0),
    ("divu", 0xffff_ffec, 6, 0x2aaa_aaa7),
    ("divu", 20, 0xffff_fffa, 0),
    ("divu", 0x8000_0000, 0xffff_ffff, 0),
    ("divu", 7, 0, 0xffff_ffff),
    ("remu", 0xffff_ffec, 6, 2),
    ("remu", 20, 0xffff_fffa, 20),
    ("remu", 0x8000_0000, 0xffff_ffff, 0x8000_0000),
    ("remu", 7, 0, 7),
    ("sll", 0x2121_2121, 0xffff_ffc7, 0x9090_9080),
    ("sll", 0x2121_2121, 0xffff_ffff, 0x8000_0000),
    ("sll", 0x2121_2121, 32, 0x2121_2121),
    ("srl", 0x2121_2121, 0xffff_ffc7, 0x0042_4242),
    ("srl", 0x8000_0000, 31, 1),
    ("sra", 0x8181_8181, 0xffff_ffc7, 0xff03_0303),
    ("sra", 0x8000_0000, 0xffff_ffff, 0xffff_ffff),
    ("sra", 0x7fff_ffff, 31, 0),
    ("sra", 0x8000_0000, 32, 0x8000_0000),
    ("slt", 0x8000_0000, 0x7fff_ffff, 1),
    ("slt", 0x7fff_ffff, 0x8000_0000, 0),
    ("slt", 0xffff_ffff, 1, 1),
    ("slt", 0xffff_ffff, 0xffff_ffff, 0),
    ("sltu", 0x8000_0000, 0x7fff_ffff, 0),
    ("sltu", 0x7fff_ffff, 0x8000_0000, 1),
    ("sltu", 0xffff_ffff, 1, 0),
    ("sltu", 0, 0xffff_ffff, 1),
];

/// The operation on x1 and x2, into x3.
fn operation(mnemonic: &str) -> Instr
    ensures { InRange result }
{
    match mnemonic {
        "mulh" => Instr::Mulh {
            rd: 3,
            rs1: 1,
            rs2: 2,
        },
        "mulhsu" => Instr::Mulhsu {
            rd: 3,
            rs1: 1,
            rs2: 2,
        },
        "mulhu" => Instr::Mulhu {
            rd: 3,
            rs1: 1,
            rs2: 2,
        },
        "div" => Instr::Div {
            rd: 3,
            rs1: 1,
            rs2: 2,
        },
        "rem" => Instr::Rem {
            rd: 3,
            rs1: 1,
            rs2: 2,
        },
        "divu" => Instr::Divu {
            rd: 3,
            rs1: 1,
            rs2: 2,
        },
        "remu" => Instr::Remu {
            rd: 3,
            rs1: 1,
            rs2: 2,
        },
        "sll" => Instr::Sll {
            rd: 3,
            rs1: 1,
            rs2: 2,
        },
        "srl" => Instr::Srl {
            rd: 3,
            rs1: 1,
            rs2: 2,
        },
        "sra" => Instr::Sra {
            rd: 3,
            rs1: 1,
            rs2: 2,
        },
        "slt" => Instr::Slt {
            rd: 3,
            rs1: 1,
            rs2: 2,
        },
        "sltu" => Instr::Sltu {
            rd: 3,
            rs1: 1,
            rs2: 2,
        },
        _ => Instr::Ecall,
    }
}

#[test]
fn operates_at_the_ends(rt: HostRuntime) {
    for (mnemonic, a, b, value) in &OPERATIONS {
        let mut registers = Regs::zero();
        registers.set(1, *a);
        registers.set(2, *b);
        let done = effect(&operation(mnemonic), &registers, 0x8000_0000);
        let written = Effect::Write {
            rd: 3,
            value: *value,
        };
        same(&rt, &(*a, *b, done), &(*a, *b, written), *mnemonic);
    }
}

#[test]
fn jumps_and_branches_to_multiples_of_four(rt: HostRuntime) {
    let mut r = Regs::zero();
    r.set(1, 0x1001);
    r.set(2, 0x1003);
    let raised = |tval| Effect::Raise { cause: 0, tval };

    let jal = Instr::Jal { rd: 1, imm: 8 };
    same(
        &rt,
        &effect(&jal, &r, 0xffff_fffc),
        &Effect::Jump {
            rd: 1,
            link: 0,
            target: 4,
        },
        "jal",
    );
    let jal = Instr::Jal { rd: 1, imm: -2 };
    same(
        &rt,
        &effect(&jal, &r, 0),
        &raised(0xffff_fffe),
        "jal to no multiple of four",
    );
    let jalr = Instr::Jalr {
        rd: 0,
        rs1: 1,
        imm: -1,
    };
    same(
        &rt,
        &effect(&jalr, &r, 0x2000),
        &Effect::Jump {
            rd: 0,
            link: 0x2004,
            target: 0x1000,
        },
        "jalr",
    );
    let jalr = Instr::Jalr {
        rd: 0,
        rs1: 1,
        imm: 0,
    };
    same(
        &rt,
        &effect(&jalr, &r, 0x2000),
        &Effect::Jump {
            rd: 0,
            link: 0x2004,
            target: 0x1000,
        },
        "jalr with its lowest bit",
    );
    let jalr = Instr::Jalr {
        rd: 0,
        rs1: 2,
        imm: 0,
    };
    same(
        &rt,
        &effect(&jalr, &r, 0x2000),
        &raised(0x1002),
        "jalr to no multiple of four",
    );
    let taken = Instr::Blt {
        rs1: 1,
        rs2: 2,
        imm: -4096,
    };
    same(
        &rt,
        &effect(&taken, &r, 0),
        &Effect::Go {
            target: 0xffff_f000,
        },
        "a branch",
    );
    let misaligned = Instr::Bne {
        rs1: 1,
        rs2: 2,
        imm: 6,
    };
    same(
        &rt,
        &effect(&misaligned, &r, 0x2000),
        &raised(0x2006),
        "a branch to no multiple of four",
    );
    let passed = Instr::Beq {
        rs1: 1,
        rs2: 2,
        imm: 6,
    };
    same(
        &rt,
        &effect(&passed, &r, 0x2000),
        &Effect::Nothing,
        "a branch that is not taken",
    );
}
