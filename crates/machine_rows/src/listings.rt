use rv_text::{AsmFault, assemble, listing};
use std::alloc::Global;
use std::test::Fail;

const PROGRAM: [u32; 18] = [
    0x00C0_00EF,
    0x05D0_0893,
    0x0000_0073,
    0xFF01_0113,
    0x0001_2023,
    0x0011_2623,
    0x0091_2423,
    0x0070_0493,
    0x0004_8513,
    0x0080_006F,
    0x0000_0513,
    0x00C1_2083,
    0x0081_2483,
    0x0101_0113,
    0x0000_8067,
    0x0FF0_000F,
    0x0000_0000,
    0xFFFF_FFFF,
];

const PROGRAM_LINES: &[u8] = b"\
jal x1, 12
addi x17, x0, 93
ecall
addi x2, x2, -16
sw x0, 0(x2)
sw x1, 12(x2)
sw x9, 8(x2)
addi x9, x0, 7
addi x10, x9, 0
jal x0, 8
addi x10, x0, 0
lw x1, 12(x2)
lw x9, 8(x2)
addi x2, x2, 16
jalr x0, 0(x1)
fence x0, x0, 255
.word 0x00000000
.word 0xffffffff
";

// Each instruction twice, with the least and the greatest of its fields.
const LINES: &[u8] = b"\
add x0, x0, x0
add x31, x31, x31
sub x0, x0, x0
sub x31, x31, x31
sll x0, x0, x0
sll x31, x31, x31
slt x0, x0, x0
slt x31, x31, x31
sltu x0, x0, x0
sltu x31, x31, x31
xor x0, x0, x0
xor x31, x31, x31
srl x0, x0, x0
srl x31, x31, x31
sra x0, x0, x0
sra x31, x31, x31
or x0, x0, x0
or x31, x31, x31
and x0, x0, x0
and x31, x31, x31
mul x0, x0, x0
mul x31, x31, x31
mulh x0, x0, x0
mulh x31, x31, x31
mulhsu x0, x0, x0
mulhsu x31, x31, x31
mulhu x0, x0, x0
mulhu x31, x31, x31
div x0, x0, x0
div x31, x31, x31
divu x0, x0, x0
divu x31, x31, x31
rem x0, x0, x0
rem x31, x31, x31
remu x0, x0, x0
remu x31, x31, x31
addi x0, x31, -2048
addi x31, x0, 2047
slti x0, x31, -2048
slti x31, x0, 2047
sltiu x0, x31, -2048
sltiu x31, x0, 2047
xori x0, x31, -2048
xori x31, x0, 2047
ori x0, x31, -2048
ori x31, x0, 2047
andi x0, x31, -2048
andi x31, x0, 2047
slli x0, x31, 0
slli x31, x0, 31
srli x0, x31, 0
srli x31, x0, 31
srai x0, x31, 0
srai x31, x0, 31
lb x0, -2048(x31)
lb x31, 2047(x0)
lh x0, -2048(x31)
lh x31, 2047(x0)
lw x0, -2048(x31)
lw x31, 2047(x0)
lbu x0, -2048(x31)
lbu x31, 2047(x0)
lhu x0, -2048(x31)
lhu x31, 2047(x0)
sb x0, -2048(x31)
sb x31, 2047(x0)
sh x0, -2048(x31)
sh x31, 2047(x0)
sw x0, -2048(x31)
sw x31, 2047(x0)
jalr x0, -2048(x31)
jalr x31, 2047(x0)
beq x0, x31, -4096
beq x31, x0, 4094
bne x0, x31, -4096
bne x31, x0, 4094
blt x0, x31, -4096
blt x31, x0, 4094
bge x0, x31, -4096
bge x31, x0, 4094
bltu x0, x31, -4096
bltu x31, x0, 4094
bgeu x0, x31, -4096
bgeu x31, x0, 4094
jal x0, -1048576
jal x31, 1048574
lui x0, 0
lui x31, 1048575
auipc x0, 0
auipc x31, 1048575
fence x0, x31, -2048
fence x31, x0, 2047
ecall
ebreak
.word 0x00000000
.word 0xffffffff
.word 0x89abcde0
";

const WORDS: [u32; 97] = [
    0x00000033, 0x01FF8FB3, 0x40000033, 0x41FF8FB3, 0x00001033, 0x01FF9FB3, 0x00002033, 0x01FFAFB3,
    0x00003033, 0x01FFBFB3, 0x00004033, 0x01FFCFB3, 0x00005033, 0x01FFDFB3, 0x40005033, 0x41FFDFB3,
    0x00006033, 0x01FFEFB3, 0x00007033, 0x01FFFFB3, 0x02000033, 0x03FF8FB3, 0x02001033, 0x03FF9FB3,
    0x02002033, 0x03FFAFB3, 0x02003033, 0x03FFBFB3, 0x02004033, 0x03FFCFB3, 0x02005033, 0x03FFDFB3,
    0x02006033, 0x03FFEFB3, 0x02007033, 0x03FFFFB3, 0x800F8013, 0x7FF00F93, 0x800FA013, 0x7FF02F93,
    0x800FB013, 0x7FF03F93, 0x800FC013, 0x7FF04F93, 0x800FE013, 0x7FF06F93, 0x800FF013, 0x7FF07F93,
    0x000F9013, 0x01F01F93, 0x000FD013, 0x01F05F93, 0x400FD013, 0x41F05F93, 0x800F8003, 0x7FF00F83,
    0x800F9003, 0x7FF01F83, 0x800FA003, 0x7FF02F83, 0x800FC003, 0x7FF04F83, 0x800FD003, 0x7FF05F83,
    0x800F8023, 0x7FF00FA3, 0x800F9023, 0x7FF01FA3, 0x800FA023, 0x7FF02FA3, 0x800F8067, 0x7FF00FE7,
    0x81F00063, 0x7E0F8FE3, 0x81F01063, 0x7E0F9FE3, 0x81F04063, 0x7E0FCFE3, 0x81F05063, 0x7E0FDFE3,
    0x81F06063, 0x7E0FEFE3, 0x81F07063, 0x7E0FFFE3, 0x8000006F, 0x7FFFFFEF, 0x00000037, 0xFFFFFFB7,
    0x00000017, 0xFFFFFF97, 0x800F800F, 0x7FF00F8F, 0x00000073, 0x00100073, 0x00000000, 0xFFFFFFFF,
    0x89ABCDE0,
];

/// The words that a text is assembled to.
fn assembled(alloc: Global, text: &[u8]) -> Option<Vec<u32>> {
    assemble(alloc, text).ok()
}

#[test]
fn lists_words_and_reads_them(rt: HostRuntime) -> Result<(), Fail> {
    let rows: &[(&[u32], &[u8])] = &[(&PROGRAM, PROGRAM_LINES), (&WORDS, LINES)];
    for &(words, lines) in rows {
        assert!(rt; listing(rt.alloc(), words)?.as_slice() == lines);
        let again = assembled(rt.alloc(), lines).ok_or("the lines are read")?;
        assert!(rt; again.as_slice() == words);
    }
    Ok(())
}

const MANY_FORMS: &[u8] = b"\
# a comment\n\
\n\
 \t \r\n\
\taddi\tx1 ,x0,\t-007# seven\r\n\
lw x5,-0 ( x31 )\t\n\
\x20 jalr x0,0(x1) # back\n\
lui x1,00000001048575\n\
.word 0xFf\n\
.word\t0x00000013 \n\
ecall#\r\n\
\t\n\
ebreak";

const WORDS_OF_FORMS: [u32; 8] = [
    0xFF90_0093,
    0x000F_A283,
    0x0000_8067,
    0xFFFF_F0B7,
    0xFF,
    0x13,
    0x73,
    0x0010_0073,
];

#[test]
fn reads_lines_in_many_forms(rt: HostRuntime) -> Result<(), Fail> {
    let words = assembled(rt.alloc(), MANY_FORMS).ok_or("the lines are read")?;
    assert!(rt; words.as_slice() == WORDS_OF_FORMS.as_slice());
    Ok(())
}

/// The fault of a text.
fn fault_of(alloc: Global, text: &[u8]) -> Option<AsmFault> {
    assemble(alloc, text).err()
}

const NO_LINES: &[&[u8]] = &[
    b"addi x1, x0, 2048",
    b"addi x1, x0, -2049",
    b"jal x1, 3",
    b"jal x1, 1048576",
    b"beq x1, x2, 4096",
    b"slli x1, x2, 32",
    b"slli x1, x2, -1",
    b"lui x1, 1048576",
    b"lui x1, -1",
    b"fence x0, x0, 2048",
    b"addi x01, x0, 1",
    b"addi x32, x0, 1",
    b"addi x1, x0, +5",
    b"addi x1, x0, - 5",
    b"addi x1, x0, --5",
    b"addi x1, x0, 0x5",
    b"addi x1, x0",
    b"addi x1, x0, 1, 2",
    b"addi x1, x0, 1 2",
    b"addi, x1, x0, 1",
    b"addix1, x0, 1",
    b"lw x1, (x2)",
    b"lw x1, 0(x2",
    b"ecall x0",
    b".word 0x",
    b".word 0x123456789",
    b".word 0X1",
];

#[test]
fn refuses_what_is_no_line(rt: HostRuntime) {
    for &line in NO_LINES {
        assert!(rt; fault_of(rt.alloc(), line) == Some(AsmFault::Line(1)));
    }
}

const FIRST_FAULTS: &[(&[u8], AsmFault)] = &[
    (b"", AsmFault::Empty),
    (b"\n# nothing\r\n \t", AsmFault::Empty),
    (b"\necall\n\nadd\nsub", AsmFault::Line(4)),
    (b"ecall\r\r\n", AsmFault::Line(1)),
    (b"ecall\necall\r", AsmFault::Line(2)),
];

#[test]
fn tells_the_first_fault(rt: HostRuntime) {
    for &(text, fault) in FIRST_FAULTS {
        assert!(rt; fault_of(rt.alloc(), text) == Some(fault));
    }
}

const NAMES: &[(AsmFault, &str)] = &[
    (AsmFault::TooLarge, "asm too large"),
    (AsmFault::Line(7), "asm line 7"),
    (AsmFault::Empty, "asm empty"),
    (AsmFault::TooMany, "asm too long"),
    (AsmFault::NoMemory, "out of memory"),
];

#[test]
fn names_faults(rt: HostRuntime) -> Result<(), Fail> {
    for &(fault, name) in NAMES {
        assert!(rt; format!(in rt.alloc(); "{fault}")?.as_str() == name);
    }
    Ok(())
}
