use super::agree;
use crate::Inst;

/// Words and the computing instructions that they stand for, of an immediate or of two registers.
const ARITHMETIC: [(u32, Inst); 33] = [
    (
        0x0000_0013,
        Inst::Addi {
            rd: 0,
            rs1: 0,
            imm: 0,
        },
    ),
    (
        0x05d0_0893,
        Inst::Addi {
            rd: 17,
            rs1: 0,
            imm: 93,
        },
    ),
    (
        0x8000_8f93,
        Inst::Addi {
            rd: 31,
            rs1: 1,
            imm: -2048,
        },
    ),
    (
        0x7fff_a093,
        Inst::Slti {
            rd: 1,
            rs1: 31,
            imm: 2047,
        },
    ),
    (
        0xfff1_b113,
        Inst::Sltiu {
            rd: 2,
            rs1: 3,
            imm: -1,
        },
    ),
    (
        0xfff2_c213,
        Inst::Xori {
            rd: 4,
            rs1: 5,
            imm: -1,
        },
    ),
    (
        0x4003_e313,
        Inst::Ori {
            rd: 6,
            rs1: 7,
            imm: 1024,
        },
    ),
    (
        0x00f4_f413,
        Inst::Andi {
            rd: 8,
            rs1: 9,
            imm: 15,
        },
    ),
    (
        0x0001_1093,
        Inst::Slli {
            rd: 1,
            rs1: 2,
            imm: 0,
        },
    ),
    (
        0x01f2_1193,
        Inst::Slli {
            rd: 3,
            rs1: 4,
            imm: 31,
        },
    ),
    (
        0x0013_5293,
        Inst::Srli {
            rd: 5,
            rs1: 6,
            imm: 1,
        },
    ),
    (
        0x01ff_5f93,
        Inst::Srli {
            rd: 31,
            rs1: 30,
            imm: 31,
        },
    ),
    (
        0x41f4_5393,
        Inst::Srai {
            rd: 7,
            rs1: 8,
            imm: 31,
        },
    ),
    (
        0x4105_5493,
        Inst::Srai {
            rd: 9,
            rs1: 10,
            imm: 16,
        },
    ),
    (
        0x4006_5593,
        Inst::Srai {
            rd: 11,
            rs1: 12,
            imm: 0,
        },
    ),
    (
        0x010f_80b3,
        Inst::Add {
            rd: 1,
            rs1: 31,
            rs2: 16,
        },
    ),
    (
        0x41b3_0333,
        Inst::Sub {
            rd: 6,
            rs1: 6,
            rs2: 27,
        },
    ),
    (
        0x0066_95b3,
        Inst::Sll {
            rd: 11,
            rs1: 13,
            rs2: 6,
        },
    ),
    (
        0x011a_2833,
        Inst::Slt {
            rd: 16,
            rs1: 20,
            rs2: 17,
        },
    ),
    (
        0x01cd_bab3,
        Inst::Sltu {
            rd: 21,
            rs1: 27,
            rs2: 28,
        },
    ),
    (
        0x0071_4d33,
        Inst::Xor {
            rd: 26,
            rs1: 2,
            rs2: 7,
        },
    ),
    (
        0x0124_dfb3,
        Inst::Srl {
            rd: 31,
            rs1: 9,
            rs2: 18,
        },
    ),
    (
        0x41d8_5233,
        Inst::Sra {
            rd: 4,
            rs1: 16,
            rs2: 29,
        },
    ),
    (
        0x008b_e4b3,
        Inst::Or {
            rd: 9,
            rs1: 23,
            rs2: 8,
        },
    ),
    (
        0x013f_7733,
        Inst::And {
            rd: 14,
            rs1: 30,
            rs2: 19,
        },
    ),
    (
        0x03e2_89b3,
        Inst::Mul {
            rd: 19,
            rs1: 5,
            rs2: 30,
        },
    ),
    (
        0x0296_1c33,
        Inst::Mulh {
            rd: 24,
            rs1: 12,
            rs2: 9,
        },
    ),
    (
        0x0349_aeb3,
        Inst::Mulhsu {
            rd: 29,
            rs1: 19,
            rs2: 20,
        },
    ),
    (
        0x03fd_3133,
        Inst::Mulhu {
            rd: 2,
            rs1: 26,
            rs2: 31,
        },
    ),
    (
        0x02a0_c3b3,
        Inst::Div {
            rd: 7,
            rs1: 1,
            rs2: 10,
        },
    ),
    (
        0x0354_5633,
        Inst::Divu {
            rd: 12,
            rs1: 8,
            rs2: 21,
        },
    ),
    (
        0x0207_e8b3,
        Inst::Rem {
            rd: 17,
            rs1: 15,
            rs2: 0,
        },
    ),
    (
        0x02bb_7b33,
        Inst::Remu {
            rd: 22,
            rs1: 22,
            rs2: 11,
        },
    ),
];

#[test]
fn arithmetic(rt: HostRuntime) {
    agree(&rt, &ARITHMETIC);
}
