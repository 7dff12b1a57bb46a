// Words, as another assembler gives them.

use rv_isa::{decode, encode};
use rv_text::listing;
use std::alloc::{AllocError, Global};
use std::test::Fail;

/// Words and their lines.
const WORDS: &[(u32, &[u8])] = &[
    (0xFFF10093, b"addi x1, x2, -1\n"),
    (0x123452B7, b"lui x5, 74565\n"),
    (0xFFDFF06F, b"jal x0, -4\n"),
    (0x800000EF, b"jal x1, -1048576\n"),
    (0x7FFF80E7, b"jalr x1, 2047(x31)\n"),
    (0xFE208CE3, b"beq x1, x2, -8\n"),
    (0x7FEFFFE3, b"bgeu x31, x30, 4094\n"),
    (0x80000F83, b"lb x31, -2048(x0)\n"),
    (0xFE512E23, b"sw x5, -4(x2)\n"),
    (0x41F25193, b"srai x3, x4, 31\n"),
    (0x023120B3, b"mulhsu x1, x2, x3\n"),
    (0x0FF0000F, b"fence x0, x0, 255\n"),
    (0x00000073, b"ecall\n"),
    (0x00100073, b"ebreak\n"),
];

/// The line of a word.
fn line_of(alloc: Global, word: u32) -> Result<Vec<u8>, AllocError> {
    listing(alloc, &[word])
}

/// Whether the word is that of an instruction, which is encoded as it.
fn is_coded(word: u32) -> bool {
    match decode(word) {
        Some(found) => encode(found) == word,
        None => false,
    }
}

#[test]
fn words(rt: HostRuntime) -> Result<(), Fail> {
    for &(word, line) in WORDS {
        assert!(rt; is_coded(word), "{word:08x}");
        assert!(rt; line_of(rt.alloc(), word)?.as_slice() == line, "{word:08x}");
    }
    Ok(())
}

/// Nothing and all ones; shifts by 32; funct7 2; another system word; funct3 of no row.
const NO_ROW: &[u32] = &[
    0x00000000, 0xFFFFFFFF, 0x02009093, 0x041080B3, 0x00200073, 0x00001067, 0x00003003, 0x00003023,
    0x00002063, 0x0000100F,
];

fn is_known(word: u32) -> bool {
    decode(word).is_some()
}

#[test]
fn no_row(rt: HostRuntime) {
    for &word in NO_ROW {
        assert!(rt; !is_known(word), "{word:08x}");
    }
}
