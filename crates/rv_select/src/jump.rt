//! Jumps from one place to another, in a layout.
ghost use Rattle.std.specs.Prelude.{◌≡◌, ℕ, suc, ◌+◌, ◌*◌, ◌-◌, ◌/◌, ◌<◌, ◌≤◌, ◌^◌, ◌%◌, [], ◌∷◌, ◌++◌, map, OnOk};
ghost use Rattle.rv_isa.specs.Encoding.{word, InRange};
ghost use Rattle.rv_isa.specs.declared.instructions.Instr.TheVariants.{Jal, Auipc, Jalr, Bne};
ghost use Rattle.rv_code.specs.Code.{offset as offset_of, most_short, most_long, most_words, jump_width as jump_words, jump, scratch_of, far_upper as far_upper_of, far_lower as far_lower_of};
ghost use Rattle.code_rules.specs.RowPieces.{over_words, back_words, test_offset as test_offset_of};
ghost use Rattle.rv_select.specs.Knowns.{code_layout, Reaches};

use crate::known::Layout;
use crate::put::put;
use rv_isa::Instr;
use std::alloc::{AllocError, Global};

/// How many words a jump has.
pub(crate) fn jump_width(layout: Layout) -> u32
    ensures value { result ≡ jump_words (code_layout layout) }
    ensures small { result ≤ 2 }
{
    match layout {
        Layout::Short => 1,
        Layout::Long => 2,
    }
}

/// The offset of a test that passes the jump behind it by.
pub(crate) fn test_offset(layout: Layout) -> u32
    ensures value { result ≡ test_offset_of (code_layout layout) }
    ensures small { result ≤ 12 }
    ensures even { result % 2 ≡ 0 }
{
    match layout {
        Layout::Short => 8,
        Layout::Long => 12,
    }
}

// The offset in bytes from one place to another.
fn offset(from: u32, to: u32) -> u32
    requires from { from ≤ most_long }
    requires to { to ≤ most_long }
    ensures value { result ≡ offset_of from to }
    ensures signed { from ≤ most_short → to < most_short → (result + 2 ^ 20) % 2 ^ 32 < 2 ^ 21 }
    ensures even { result % 2 ≡ 0 }
{
    if to < from {
        (4 * (from - to)).wrapping_neg()
    } else {
        4 * (to - from)
    }
}

// The upper part of an offset in two instructions.
fn far_upper(offset: u32) -> u32
    ensures value { result ≡ far_upper_of offset }
    ensures small { result < 2 ^ 20 }
{
    offset.wrapping_add(2048) / 4096
}

// What the lower part adds to the upper one.
fn far_lower(offset: u32) -> u32
    ensures value { result ≡ far_lower_of offset }
    ensures small { (result + 2 ^ 11) % 2 ^ 32 < 2 ^ 12 }
{
    offset.wrapping_sub(4096 * far_upper(offset))
}

// The register that has a far target's upper part: the one that gets the address behind the jump, or t1.
fn scratch(rd: u8) -> u8
    requires { rd < 32 }
    ensures value { result ≡ scratch_of rd }
    ensures small { result < 32 }
{
    if rd == 0 { 6 } else { rd }
}

// A jump of two instructions.
fn put_far_jump(out: &mut Vec<u32>, rd: u8, offset: u32) -> Result<(), AllocError>
    requires { rd < 32 }
    ensures { OnOk result (out.new.items ≡ out.old.items ++ map word (Auipc (scratch_of rd) (far_upper_of offset) ∷ Jalr rd (scratch_of rd) (far_lower_of offset) ∷ [])) }
{
    put(
        out,
        Instr::Auipc {
            rd: scratch(rd),
            upper: far_upper(offset),
        },
    )?;
    put(
        out,
        Instr::Jalr {
            rd,
            rs1: scratch(rd),
            imm: far_lower(offset),
        },
    )
}

/// A jump from a place to another, with the address behind it in a register.
pub(crate) fn put_jump(
    out: &mut Vec<u32>,
    layout: Layout,
    rd: u8,
    from: u32,
    to: u32,
) -> Result<(), AllocError>
    requires register { rd < 32 }
    requires reach { Reaches (code_layout layout) from to }
    ensures { OnOk result (out.new.items ≡ out.old.items ++ map word (jump (code_layout layout) rd from to)) }
{
    match layout {
        Layout::Short => put(
            out,
            Instr::Jal {
                rd,
                offset: offset(from, to),
            },
        ),
        Layout::Long => put_far_jump(out, rd, offset(from, to)),
    }
}

/// A jump over this many words.
pub(crate) fn put_over(out: &mut Vec<u32>, layout: Layout, words: u32) -> Result<(), AllocError>
    requires near { words + 1 < most_words (code_layout layout) }
    ensures { OnOk result (out.new.items ≡ out.old.items ++ map word (over_words (code_layout layout) words)) }
{
    match layout {
        Layout::Short => put_jump(out, Layout::Short, 0, 0, 1 + words),
        Layout::Long => put_jump(out, Layout::Long, 0, 0, 2 + words),
    }
}

/// A jump back over this many words.
pub(crate) fn put_back(out: &mut Vec<u32>, layout: Layout, words: u32) -> Result<(), AllocError>
    requires near { words ≤ most_words (code_layout layout) }
    ensures { OnOk result (out.new.items ≡ out.old.items ++ map word (back_words (code_layout layout) words)) }
{
    put_jump(out, layout, 0, words, 0)
}

/// A test, and a jump over this many words.
pub(crate) fn put_test(
    out: &mut Vec<u32>,
    layout: Layout,
    test: Instr,
    words: u32,
) -> Result<(), AllocError>
    requires test { InRange test }
    requires near { words + 1 < most_words (code_layout layout) }
    ensures { OnOk result (out.new.items ≡ out.old.items ++ map word (test ∷ over_words (code_layout layout) words)) }
{
    put(out, test)?;
    put_over(out, layout, words)
}

/// A test of slot 0, and a jump over this many words where it fails.
pub(crate) fn put_unless(out: &mut Vec<u32>, layout: Layout, words: u32) -> Result<(), AllocError>
    requires near { words + 1 < most_words (code_layout layout) }
    ensures { OnOk result (out.new.items ≡ out.old.items ++ map word (Bne 9 0 (test_offset_of (code_layout layout)) ∷ over_words (code_layout layout) words)) }
{
    put_test(
        out,
        layout,
        Instr::Bne {
            rs1: 9,
            rs2: 0,
            offset: test_offset(layout),
        },
        words,
    )
}
