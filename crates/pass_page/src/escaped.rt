//! Texts as HTML has them, and boxes.

ghost use Rattle.std.specs.Prelude.{◌≡◌, ◌++◌, decimal, OnOk};
ghost use Rattle.pass_page.specs.Page.{box_end, box_start, escape, escaped};

use itoa::Buffer;
use std::alloc::AllocError;

// Writes a byte of a text behind a text.
fn push_byte(out: &mut Vec<u8>, byte: u8) -> Result<(), AllocError>
    ensures { OnOk result (out.new.items ≡ out.old.items ++ escape byte) }
{
    match byte {
        b'&' => out.extend_from_slice(b"&amp;"),
        b'<' => out.extend_from_slice(b"&lt;"),
        b'>' => out.extend_from_slice(b"&gt;"),
        b'"' => out.extend_from_slice(b"&quot;"),
        byte => Ok(out.push(byte)?),
    }
}

/// Writes a text behind a text, as HTML has it.
pub(crate) fn push_escaped(out: &mut Vec<u8>, text: &[u8]) -> Result<(), AllocError>
    ensures { OnOk result (out.new.items ≡ out.old.items ++ escaped text.now) }
{
    for byte in text {
        push_byte(out, *byte)?;
    }
    Ok(())
}

/// Writes a number in decimal behind a text.
pub(crate) fn push_decimal(out: &mut Vec<u8>, number: u64) -> Result<(), AllocError>
    ensures { OnOk result (out.new.items ≡ out.old.items ++ decimal number) }
{
    let mut buffer = Buffer::new();
    out.extend_from_slice(buffer.format(number).as_bytes())
}

/// Writes what a box with a name begins with behind a text.
pub(crate) fn push_box_start(out: &mut Vec<u8>, name: &[u8]) -> Result<(), AllocError>
    ensures { OnOk result (out.new.items ≡ out.old.items ++ box_start name.now) }
{
    out.extend_from_slice(b"<section><h2>")?;
    out.extend_from_slice(name)?;
    out.extend_from_slice(b"</h2>")
}

/// Writes what a box ends with behind a text.
pub(crate) fn push_box_end(out: &mut Vec<u8>) -> Result<(), AllocError>
    ensures { OnOk result (out.new.items ≡ out.old.items ++ box_end) }
{
    out.extend_from_slice(b"</section>\n")
}
