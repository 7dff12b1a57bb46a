//! The source, with its tokens.

ghost use Rattle.std.specs.Prelude.{◌≡◌, ◌++◌, codes, OnOk};
ghost use Rattle.pass_page.specs.Page.{escaped, source_box, spans};

use crate::escaped::{push_box_end, push_box_start, push_escaped};
use ast_rows::Tokens;
use list_cuts::stretch_at;
use pass_tables::number_at;
use std::alloc::AllocError;

// Writes a token behind a text.
fn push_span(out: &mut Vec<u8>, lexeme: &[u8]) -> Result<(), AllocError>
    ensures { OnOk result (out.new.items ≡ out.old.items ++ codes "<span>" ++ escaped lexeme.now ++ codes "</span>") }
{
    out.extend_from_slice(b"<span>")?;
    push_escaped(out, lexeme)?;
    out.extend_from_slice(b"</span>")
}

// Writes a text behind a text, with each of its tokens as a span.
fn push_spans(out: &mut Vec<u8>, text: &[u8], tokens: &Tokens) -> Result<(), AllocError>
    ensures { OnOk result (out.new.items ≡ out.old.items ++ spans text.now 0 tokens.now) }
{
    let mut place = 0;
    for k in 0..tokens.len() {
        let start = number_at(tokens.starts(), k) as usize;
        let length = number_at(tokens.lengths(), k) as usize;
        push_escaped(out, stretch_at(text, place, start.saturating_sub(place)))?;
        push_span(out, stretch_at(text, start, length))?;
        place = start + length;
    }
    push_escaped(out, stretch_at(text, place, text.len()))
}

/// Writes the box of a source behind a text: the source, with each of its tokens as a span.
pub fn push_source_box(out: &mut Vec<u8>, text: &[u8], tokens: &Tokens) -> Result<(), AllocError>
    ensures { OnOk result (out.new.items ≡ out.old.items ++ source_box text.now tokens.now) }
{
    push_box_start(out, b"source")?;
    out.extend_from_slice(b"<pre id=source>\n")?;
    push_spans(out, text, tokens)?;
    out.extend_from_slice(b"</pre>")?;
    push_box_end(out)
}
