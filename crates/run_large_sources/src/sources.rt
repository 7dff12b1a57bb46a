//! Sources of many bytes.

use std::alloc::{AllocError, Global};

/// A source of many bytes.
#[derive(Clone, Copy)]
pub(crate) enum Source {
    /// This many variables, each of which takes a word of the frame of `main`.
    Variables(u32),
    /// This many statements of one word each.
    Zeros(u32),
    /// A piece this many times between a beginning and an end.
    Filled {
        before: &'static [u8],
        piece: &'static [u8],
        count: u32,
        behind: &'static [u8],
    },
    /// This many bytes of white space alone.
    Spaces(usize),
    /// A program whose value is an expression that begins and ends this many times with these pieces.
    Around {
        before: &'static [u8],
        count: u32,
        middle: &'static [u8],
        behind: &'static [u8],
    },
    /// A program with a statement inside this many others.
    Blocks {
        before: &'static [u8],
        count: u32,
        behind: &'static [u8],
    },
    /// One line with a name of `length` bytes in a declaration and in this many sums.
    LongNames {
        length: usize,
        count: u32,
    },
    /// A comment of this many bytes behind a program.
    Comment(u32),
    /// This many functions besides the first one, each of which adds one to what the one before it gives.
    CallsInARow(u32),
    /// This many functions that give 0, and `main`, which calls the first of them.
    Names(u32),
    /// A call of a function without parameters with this many arguments.
    Arguments(u32),
    /// A chain of this many else-ifs, of which the last one is taken, and prints its number.
    ElseIfs(u32),
}

impl Source {
    /// The bytes of the source.
    pub(crate) fn text(self, alloc: Global) -> Result<Vec<u8>, AllocError> {
        match self {
            Source::Variables(count) => variables(alloc, count),
            Source::Zeros(count) => filled(alloc, b"fn main(): int {", b"0;", count, b"}"),
            Source::Filled {
                before,
                piece,
                count,
                behind,
            } => filled(alloc, before, piece, count, behind),
            Source::Spaces(count) => vec![in alloc; b' '; count],
            Source::Around {
                before,
                count,
                middle,
                behind,
            } => around(alloc, before, count, middle, behind),
            Source::Blocks {
                before,
                count,
                behind,
            } => blocks(alloc, before, count, behind),
            Source::LongNames { length, count } => long_names(alloc, length, count),
            Source::Comment(count) => comment(alloc, count),
            Source::CallsInARow(count) => calls_in_a_row(alloc, count),
            Source::Names(count) => names(alloc, count),
            Source::Arguments(count) => arguments(alloc, count),
            Source::ElseIfs(count) => else_ifs(alloc, count),
        }
    }
}

// Puts a piece of text behind another one this many times.
fn repeat(text: &mut Vec<u8>, piece: &[u8], count: u32) -> Result<(), AllocError> {
    for _ in 0..count {
        text.extend_from_slice(piece)?;
    }
    Ok(())
}

fn variables(alloc: Global, count: u32) -> Result<Vec<u8>, AllocError> {
    let mut text = b"fn main(): int {".to_vec(alloc)?;
    for number in 0..count {
        let declaration = format!(in alloc; " var v{number}: int = 0;")?;
        text.extend_from_slice(declaration.as_bytes())?;
    }
    text.extend_from_slice(b" }")?;
    Ok(text)
}

fn filled(
    alloc: Global,
    before: &[u8],
    piece: &[u8],
    count: u32,
    behind: &[u8],
) -> Result<Vec<u8>, AllocError> {
    let mut text = before.to_vec(alloc)?;
    repeat(&mut text, piece, count)?;
    text.extend_from_slice(behind)?;
    Ok(text)
}

fn around(
    alloc: Global,
    before: &[u8],
    count: u32,
    middle: &[u8],
    behind: &[u8],
) -> Result<Vec<u8>, AllocError> {
    let mut text =
        b"fn f(var a: int): int { return a; } fn main(): int { var x: int = 1; return ".to_vec(
            alloc,
        )?;
    repeat(&mut text, before, count)?;
    text.extend_from_slice(middle)?;
    repeat(&mut text, behind, count)?;
    text.extend_from_slice(b"; }")?;
    Ok(text)
}

fn blocks(alloc: Global, before: &[u8], count: u32, behind: &[u8]) -> Result<Vec<u8>, AllocError> {
    let mut text = b"fn main(): int { var x: int = 1; var y: int = 0; ".to_vec(alloc)?;
    repeat(&mut text, before, count)?;
    text.extend_from_slice(b" y = y + 1; ")?;
    repeat(&mut text, behind, count)?;
    text.extend_from_slice(b" return y; }")?;
    Ok(text)
}

fn long_names(alloc: Global, length: usize, count: u32) -> Result<Vec<u8>, AllocError> {
    let name = vec![in alloc; b'n'; length]?;
    let mut text = b"fn main(): int { var ".to_vec(alloc)?;
    text.extend_from_slice(&name)?;
    text.extend_from_slice(b": int = 1; ")?;
    for _ in 0..count {
        text.extend_from_slice(&name)?;
        text.extend_from_slice(b" = ")?;
        text.extend_from_slice(&name)?;
        text.extend_from_slice(b" + 1; ")?;
    }
    text.extend_from_slice(b"return ")?;
    text.extend_from_slice(&name)?;
    text.extend_from_slice(b"; }")?;
    Ok(text)
}

fn comment(alloc: Global, count: u32) -> Result<Vec<u8>, AllocError> {
    let mut text = b"fn main(): int { return 7; } //".to_vec(alloc)?;
    repeat(&mut text, b"/", count)?;
    Ok(text)
}

fn calls_in_a_row(alloc: Global, count: u32) -> Result<Vec<u8>, AllocError> {
    let mut text = b"fn f0(): int { return 0; }\n".to_vec(alloc)?;
    for number in 0..count {
        let next = u64::from(number) + 1;
        let function = format!(in alloc; "fn f{next}(): int {{ return f{number}[] + 1; }}\n")?;
        text.extend_from_slice(function.as_bytes())?;
    }
    let main = format!(in alloc; "fn main(): int {{ return f{count}[]; }}\n")?;
    text.extend_from_slice(main.as_bytes())?;
    Ok(text)
}

fn names(alloc: Global, count: u32) -> Result<Vec<u8>, AllocError> {
    let mut text = Vec::new(alloc);
    for number in 0..count {
        let function = format!(in alloc; "fn f{number}(): int {{ }}\n")?;
        text.extend_from_slice(function.as_bytes())?;
    }
    text.extend_from_slice(b"fn main(): int { return f0[]; }\n")?;
    Ok(text)
}

fn arguments(alloc: Global, count: u32) -> Result<Vec<u8>, AllocError> {
    let mut text = b"fn f(): int { return 0; } fn main(): int { return f[0".to_vec(alloc)?;
    repeat(&mut text, b", 0", count.saturating_sub(1))?;
    text.extend_from_slice(b"]; }")?;
    Ok(text)
}

fn else_ifs(alloc: Global, count: u32) -> Result<Vec<u8>, AllocError> {
    let beginning = format!(in alloc;
        "fn main(): int {{ var x: int = {count}; if x == 0 {{ print 0; }}"
    )?;
    let mut text = beginning.as_bytes().to_vec(alloc)?;
    for number in 0..count {
        let next = u64::from(number) + 1;
        let branch = format!(in alloc; " else if x == {next} {{ print {next}; }}")?;
        text.extend_from_slice(branch.as_bytes())?;
    }
    text.extend_from_slice(b" else { print -1; } return x; }")?;
    Ok(text)
}
