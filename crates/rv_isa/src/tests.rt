mod arithmetic;
mod references;
mod transfers;

use crate::{Class, Decoder, Inst, class_of, decode, dest, encode, sources};
use std::process::Abort;
use std::test::Fail;

/// Each word stands for its instruction, and is encoded of it. The cases have each instruction with
/// the least, the greatest and telling immediates of its format. The words are those that LLVM's
/// assembler gives for these instructions.
pub fn agree(rt: &impl Abort, cases: &[(u32, Inst)]) {
    for &(word, inst) in cases {
        let decoded = decode(word);
        assert_eq!(rt; decoded, Some(inst), "at {word:#010x}");
        if let Some(found) = decoded {
            assert_eq!(rt; encode(&found), word, "at {word:#010x}");
        }
    }
}

/// Fences and environment calls.
#[test]
fn system(rt: HostRuntime) {
    let cases = [
        (0x0ff0_000f, Inst::Fence { rest: 0x0ff0_0000 }),
        (0x0310_000f, Inst::Fence { rest: 0x0310_0000 }),
        (0x8330_000f, Inst::Fence { rest: 0x8330_0000 }),
        (0x0000_100f, Inst::FenceI { rest: 0x0000_0000 }),
        (0x0000_0073, Inst::Ecall),
        (0x0010_0073, Inst::Ebreak),
    ];
    agree(&rt, &cases);
}

/// Fences keep whatever their free bits are.
#[test]
fn free_bits_of_fences(rt: HostRuntime) {
    assert_eq!(rt;
        decode(0xffff_8f8f),
        Some(Inst::Fence { rest: 0xffff_8f80 })
    );
    assert_eq!(rt;
        decode(0xffff_9f8f),
        Some(Inst::FenceI { rest: 0xffff_8f80 })
    );
}

/// Words of other extensions and widths, and words one field away from an instruction.
#[test]
fn words_outside_the_table(rt: HostRuntime) {
    let words = [
        0x0000_0000, // all zeros
        0xffff_ffff, // all ones
        0x0000_4501, // c.li x10, 0
        0x0000_0012, // ADDI's opcode with other low bits
        0x0000_1067, // JALR's opcode, funct3 1
        0x0000_2063, // a branch, funct3 2
        0x0000_3063, // a branch, funct3 3
        0x0000_3003, // ld
        0x0000_6003, // lwu
        0x0000_7003, // a load, funct3 7
        0x0000_3023, // sd
        0x0000_4023, // a store, funct3 4
        0x4000_1013, // SLLI with funct7 0x20
        0x0200_1013, // SLLI by 32, of RV64
        0x0200_5013, // SRLI by 32, of RV64
        0x4200_5013, // SRAI by 32, of RV64
        0x4000_1033, // SLL with funct7 0x20
        0x4000_7033, // ANDN
        0x0400_0033, // funct7 2
        0x0000_001b, // addiw
        0x0000_200f, // a fence, funct3 2
        0x0000_00f3, // ECALL with rd 1
        0x0000_8073, // ECALL with rs1 1
        0x0020_0073, // URET
        0x3020_0073, // MRET
        0xc000_2573, // RDCYCLE x10
        0x0000_2007, // flw
        0x0000_202f, // AMOADD.W
        0x0000_0053, // FADD.S
    ];
    for word in words {
        assert_eq!(rt; decode(word), None, "at {word:#010x}");
    }
}

/// One row of each format and class, and rows with register 0.
#[test]
fn roles(rt: HostRuntime) {
    let cases = [
        (0x0000_1297, Class::Alu, (None, None), Some(5)), // auipc x5, 1
        (0x8000_00ef, Class::Control, (None, None), Some(1)), // jal x1, -1048576
        (0x0000_8067, Class::Control, (Some(1), None), None), // jalr x0, 0(x1)
        (0xfe02_9ee3, Class::Control, (Some(5), None), None), // bne x5, x0, -4
        (0x0051_8463, Class::Control, (Some(3), Some(5)), None), // beq x3, x5, 8
        (0xffc1_2303, Class::Load, (Some(2), None), Some(6)), // lw x6, -4(x2)
        (0xfe51_2e23, Class::Store, (Some(2), Some(5)), None), // sw x5, -4(x2)
        (0x0000_2023, Class::Store, (None, None), None), // sw x0, 0(x0)
        (0x0000_0013, Class::Alu, (None, None), None), // addi x0, x0, 0
        (0x4103_0293, Class::Alu, (Some(6), None), Some(5)), // addi x5, x6, 1040
        (0x41f3_5293, Class::Alu, (Some(6), None), Some(5)), // srai x5, x6, 31
        (0x4073_02b3, Class::Alu, (Some(6), Some(7)), Some(5)), // sub x5, x6, x7
        (0x0273_32b3, Class::Mul, (Some(6), Some(7)), Some(5)), // mulhu x5, x6, x7
        (0x0270_72b3, Class::Div, (None, Some(7)), Some(5)), // remu x5, x0, x7
        (0x0ff0_000f, Class::Alu, (None, None), None), // fence iorw, iorw
        (0x0000_0073, Class::Ecall, (None, None), None), // ecall
        (0x0010_0073, Class::Alu, (None, None), None), // ebreak
    ];
    for (word, class, read, written) in cases {
        if let Some(inst) = decode(word) {
            assert_eq!(rt; class_of(&inst), class, "at {word:#010x}");
            assert_eq!(rt; sources(&inst), read, "at {word:#010x}");
            assert_eq!(rt; dest(&inst), written, "at {word:#010x}");
        } else {
            assert!(rt; false, "{word:#010x} is decoded");
        }
    }
}

/// The same address with one word after another, and addresses that share a place in the decoder.
/// Whatever came before, a word is decoded as if it stood alone.
#[test]
fn decoder(rt: HostRuntime) -> Result<(), Fail> {
    let cases = [
        (0x0000_1000, 0x0000_0013), // addi x0, x0, 0
        (0x0000_1000, 0x0000_0013),
        (0x0000_1000, 0x4073_02b3), // sub x5, x6, x7
        (0x0000_5000, 0x0273_32b3), // mulhu x5, x6, x7
        (0x0000_1000, 0x4073_02b3),
        (0x0000_1000, 0x0000_0000), // no instruction
        (0x0000_1000, 0x4073_02b3),
        (0x0000_0ffc, 0x0000_0073), // ecall
        (0xffff_fffc, 0xfe51_2e23), // sw x5, -4(x2)
    ];
    let mut decoder = Decoder::new(rt.alloc())?;
    for (addr, word) in cases {
        let found = decoder.decode(addr, word);
        let inst = decode(word);
        assert_eq!(rt; found.map(|decoded| decoded.inst), inst, "at {word:#010x}");
        if let Some(decoded) = found {
            let inst = decoded.inst;
            assert_eq!(rt; decoded.class, class_of(&inst), "at {word:#010x}");
            assert_eq!(rt;
                (decoded.first, decoded.second),
                sources(&inst),
                "at {word:#010x}"
            );
            assert_eq!(rt; decoded.dest, dest(&inst), "at {word:#010x}");
        }
    }
    Ok(())
}
