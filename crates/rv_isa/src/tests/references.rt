use super::agree;
use crate::Inst;

/// Words and the loads and stores that they stand for.
const REFERENCES: [(u32, Inst); 11] = [
    (
        0x8001_0083,
        Inst::Lb {
            rd: 1,
            rs1: 2,
            imm: -2048,
        },
    ),
    (
        0x7ff0_1f83,
        Inst::Lh {
            rd: 31,
            rs1: 0,
            imm: 2047,
        },
    ),
    (
        0xffcf_a303,
        Inst::Lw {
            rd: 6,
            rs1: 31,
            imm: -4,
        },
    ),
    (
        0x0001_2503,
        Inst::Lw {
            rd: 10,
            rs1: 2,
            imm: 0,
        },
    ),
    (
        0x0014_4803,
        Inst::Lbu {
            rd: 16,
            rs1: 8,
            imm: 1,
        },
    ),
    (
        0xfff7_d003,
        Inst::Lhu {
            rd: 0,
            rs1: 15,
            imm: -1,
        },
    ),
    (
        0x8011_0023,
        Inst::Sb {
            rs1: 2,
            rs2: 1,
            imm: -2048,
        },
    ),
    (
        0x7ff0_1fa3,
        Inst::Sh {
            rs1: 0,
            rs2: 31,
            imm: 2047,
        },
    ),
    (
        0xfe6f_ae23,
        Inst::Sw {
            rs1: 31,
            rs2: 6,
            imm: -4,
        },
    ),
    (
        0x02a1_2023,
        Inst::Sw {
            rs1: 2,
            rs2: 10,
            imm: 32,
        },
    ),
    (
        0x0108_2fa3,
        Inst::Sw {
            rs1: 16,
            rs2: 16,
            imm: 31,
        },
    ),
];

#[test]
fn references(rt: HostRuntime) {
    agree(&rt, &REFERENCES);
}
