// The parts of a page, whose arrays are made by hand.

use ast_rows::{Rows, Tokens};
use pass_page::{push_closing, push_opening, push_source_box, push_table_box, push_tree_box};
use source_meaning::{BinaryOp, Kind, Terminal, ValueType};
use std::alloc::{AllocError, Global};
use std::test::Fail;
use text_columns::{Align, Column};

const SOURCE: &[u8] = b"\n1<23 // \xE9 & \"\n";

const KINDS: [Kind; 7] = [
    Kind::Num(1),
    Kind::Num(23),
    Kind::Binary(BinaryOp::Less),
    Kind::Return,
    Kind::Block,
    Kind::Function(ValueType::Bool),
    Kind::Program,
];

const PARENTS: [u32; 7] = [2, 2, 3, 4, 5, 6, 6];

// The tokens of the source.
fn tokens(alloc: Global) -> Result<Tokens, AllocError> {
    let terminals = [Terminal::Digits, Terminal::Cmp, Terminal::Digits];
    let terminals = Vec::from_array(alloc, terminals)?;
    let starts = Vec::from_array(alloc, [1, 2, 3])?;
    let lengths = Vec::from_array(alloc, [1, 1, 2])?;
    Ok(Tokens::new(terminals, starts, lengths))
}

// Rows of a function that returns what the source says.
fn rows(alloc: Global) -> Result<Rows, Fail> {
    let kinds = Vec::from_array(alloc, KINDS)?;
    let parents = Vec::from_array(alloc, PARENTS)?;
    let tokens = vec![in alloc; u32::MAX; 7]?;
    let places = vec![in alloc; 0; 7]?;
    Ok(Rows::from_columns(alloc, kinds, parents, tokens, places)?.ok_or("rows")?)
}

#[test]
fn source_of_three_tokens(rt: HostRuntime) -> Result<(), Fail> {
    let alloc = rt.alloc();
    let mut out = Vec::from_slice(alloc, b"above\n")?;
    push_source_box(&mut out, SOURCE, &tokens(alloc)?)?;
    assert_eq!(rt;
        out.as_slice(),
        b"above
<section><h2>source</h2><pre id=source>

<span>1</span><span>&lt;</span><span>23</span> // \xE9 &amp; &quot;
</pre></section>
"
            .as_slice()
    );
    Ok(())
}

#[test]
fn tree_of_seven_rows(rt: HostRuntime) -> Result<(), Fail> {
    let alloc = rt.alloc();
    let rows = rows(alloc)?;
    assert!(rt; rows.len() <= 4294967295);
    let mut out = Vec::new(alloc);
    push_tree_box(alloc, &mut out, &rows)?;
    assert_eq!(rt;
        out.as_slice(),
        b"\
<section><h2>tree</h2><svg id=tree width=260 height=140>
<g transform='translate(100,14)'><path d='M-4-4h-16v40'/><text>number 1</text></g>
<g transform='translate(100,34)'><path d='M-4-4h-16v20'/><text>number 23</text></g>
<g transform='translate(84,54)'><path d='M-4-4h-16v20'/><text>binary &lt;</text></g>
<g transform='translate(68,74)'><path d='M-4-4h-16v20'/><text>return</text></g>
<g transform='translate(52,94)'><path d='M-4-4h-16v20'/><text>block</text></g>
<g transform='translate(36,114)'><path d='M-4-4h-16v20'/><text>function bool</text></g>
<g transform='translate(20,134)'><path d='M-4-4h-16v0'/><text>program</text></g>
</svg></section>
"
            .as_slice()
    );
    Ok(())
}

#[test]
fn table_of_two_columns(rt: HostRuntime) -> Result<(), Fail> {
    let alloc = rt.alloc();
    let mut rows = Column::new(alloc, b"row", Align::Right)?;
    rows.push_number(0)?;
    rows.push_number(1)?;
    let mut texts = Column::new(alloc, b"a < b", Align::Left)?;
    texts.push(b"&&")?;
    let columns = [rows, texts];
    let mut out = Vec::new(alloc);
    push_table_box(&mut out, b"rows", &columns)?;
    assert_eq!(rt;
        out.as_slice(),
        b"\
<section><h2>rows</h2><table id=rows><thead><tr><th class=r>row<th>a &lt; b</thead><tbody>
<tr><td class=r>0<td>&amp;&amp;
<tr><td class=r>1<td>
</tbody></table></section>
"
            .as_slice()
    );
    Ok(())
}

#[test]
fn page_without_boxes(rt: HostRuntime) -> Result<(), Fail> {
    let mut out = Vec::new(rt.alloc());
    push_opening(&mut out)?;
    assert!(rt; out.starts_with(b"<!DOCTYPE html>\n<html lang=en>\n"));
    assert!(rt; out.ends_with(b"\n<main>\n"));
    push_closing(&mut out)?;
    assert!(rt; out.ends_with(b"</script>\n</body>\n</html>\n"));
    Ok(())
}
