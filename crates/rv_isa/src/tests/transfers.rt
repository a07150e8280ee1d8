use super::agree;
use crate::Inst;

/// Words and the upper immediates, jumps and branches that they stand for.
const TRANSFERS: [(u32, Inst); 24] = [
    (0x0000_00b7, Inst::Lui { rd: 1, imm: 0 }),
    (
        0x8000_0fb7,
        Inst::Lui {
            rd: 31,
            imm: -2147483648,
        },
    ),
    (
        0x7fff_f537,
        Inst::Lui {
            rd: 10,
            imm: 2147479552,
        },
    ),
    (0xffff_f037, Inst::Lui { rd: 0, imm: -4096 }),
    (0x0000_1297, Inst::Auipc { rd: 5, imm: 4096 }),
    (
        0x8000_0897,
        Inst::Auipc {
            rd: 17,
            imm: -2147483648,
        },
    ),
    (
        0x8000_00ef,
        Inst::Jal {
            rd: 1,
            imm: -1048576,
        },
    ),
    (
        0x7fff_f06f,
        Inst::Jal {
            rd: 0,
            imm: 1048574,
        },
    ),
    (0x0010_02ef, Inst::Jal { rd: 5, imm: 2048 }),
    (0xffff_ffef, Inst::Jal { rd: 31, imm: -2 }),
    (0x0000_116f, Inst::Jal { rd: 2, imm: 4096 }),
    (
        0x0000_8067,
        Inst::Jalr {
            rd: 0,
            rs1: 1,
            imm: 0,
        },
    ),
    (
        0x8002_80e7,
        Inst::Jalr {
            rd: 1,
            rs1: 5,
            imm: -2048,
        },
    ),
    (
        0x7fff_8fe7,
        Inst::Jalr {
            rd: 31,
            rs1: 31,
            imm: 2047,
        },
    ),
    (
        0x8000_0063,
        Inst::Beq {
            rs1: 0,
            rs2: 0,
            imm: -4096,
        },
    ),
    (
        0x7e1f_8fe3,
        Inst::Beq {
            rs1: 31,
            rs2: 1,
            imm: 4094,
        },
    ),
    (
        0x01f0_80e3,
        Inst::Beq {
            rs1: 1,
            rs2: 31,
            imm: 2048,
        },
    ),
    (
        0xff01_0fe3,
        Inst::Beq {
            rs1: 2,
            rs2: 16,
            imm: -2,
        },
    ),
    (
        0xfe02_9ee3,
        Inst::Bne {
            rs1: 5,
            rs2: 0,
            imm: -4,
        },
    ),
    (
        0x0094_1f63,
        Inst::Bne {
            rs1: 8,
            rs2: 9,
            imm: 30,
        },
    ),
    (
        0x40b5_4063,
        Inst::Blt {
            rs1: 10,
            rs2: 11,
            imm: 1024,
        },
    ),
    (
        0x80d6_50e3,
        Inst::Bge {
            rs1: 12,
            rs2: 13,
            imm: -2048,
        },
    ),
    (
        0x02f7_6063,
        Inst::Bltu {
            rs1: 14,
            rs2: 15,
            imm: 32,
        },
    ),
    (
        0xbf1f_7fe3,
        Inst::Bgeu {
            rs1: 30,
            rs2: 17,
            imm: -1026,
        },
    ),
];

#[test]
fn transfers(rt: HostRuntime) {
    agree(&rt, &TRANSFERS);
}
