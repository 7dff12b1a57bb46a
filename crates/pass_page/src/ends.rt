//! What stands before the boxes of the page, and behind them.

ghost use Rattle.std.specs.Prelude.{◌≡◌, ◌++◌, OnOk};
ghost use Rattle.pass_page.specs.Page.{closing, opening};

use std::alloc::AllocError;

/// The head of the page with its style, and a few words for the reader. The definitions read the constant, so the text stands here alone.
pub(crate) const OPENING: &[u8] = b"\
<!DOCTYPE html>
<html lang=en>
<head>
<meta charset=utf-8>
<meta name=viewport content='width=device-width,initial-scale=1'>
<title>What the passes of a compiler make of a source</title>
<style>
body{margin:8px;background:#fff;color:#000;font:14px/20px monospace}
h1,h2{margin:0;font-size:16px}
h2{position:sticky;left:0;top:-4px;background:#fff}
p{margin:4px 0 8px}
main{display:flex;flex-wrap:wrap;align-items:flex-start;gap:8px}
section{box-sizing:border-box;max-width:100%;max-height:44vh;overflow:auto;border:1px solid #666;padding:4px}
pre{margin:0;font:inherit}
table{border-collapse:collapse}
th,td{padding:0 6px;text-align:left;white-space:pre}
th{position:sticky;top:16px;background:#ddd}
.r{text-align:right}
path{fill:none;stroke:#666}
.lit,.lit text{background:#fd4;outline:2px solid #000}
tr.lit{outline-offset:-1px}
g.lit{outline:0}
.lit text{font-weight:bold;stroke:#fd4;stroke-width:6px;paint-order:stroke}
.lit path{stroke:#000;stroke-width:3px}
</style>
</head>
<body>
<h1>What the passes of a compiler make of a source</h1>
<p>Each box shows the arrays of one pass: a line for each item, with its number first. The tree is drawn from the rows: children stand above their parent, and
a line leads from each down to it. Point at a token, a node, a row or a word of the code, and what belongs to it lights up in all boxes.</p>
<main>
";

/// The script that lights what belongs together. It finds the items of each array by their order.
pub(crate) const CLOSING: &[u8] = b"\
</main>
<script>
const all = s => [...document.querySelectorAll(s)], lines = name => all('#' + name + '>tbody>tr')
const number = (line, i) => line ? +line.cells[i].textContent : 0
const spans = all('#source>span'), nodes = all('#tree>g'), tokens = lines('tokens'), frames = lines('frames'), code = lines('code')
const tables = ['rows', 'names', 'types', 'places'].map(lines), [rows, , , places] = tables, groups = new Map()
const join = (...parts) => {
  const group = parts.filter(e => e)
  group.forEach(e => groups.set(e, [...groups.get(e) || [], ...group]))
}
spans.forEach((span, k) => join(span, tokens[k]))
join(...code.slice(0, number(places[0], 4)))
rows.forEach((row, k) => {
  const own = number(row, 3), first = number(places[k], 4), words = code.slice(first, first + number(places[k], 3))
  const frame = row.cells[1].textContent.startsWith('function') && frames.shift()
  join(nodes[k], ...tables.map(t => t[k]), spans[own], tokens[own], frame, ...words)
})
let lit = new Set()
const bring = (e, here) => {
  const box = e.closest('section'), y = e.getBoundingClientRect().top - box.getBoundingClientRect().top
  if (box != here && (y < 60 || y > box.clientHeight - 20)) box.scrollTop += y - box.clientHeight / 2
}
document.onpointerover = event => {
  const here = event.target.closest('span,g,tr')
  lit.forEach(e => e.classList.remove('lit'))
  lit = new Set(groups.get(here))
  lit.forEach(e => e.classList.add('lit'))
  if (here) [...lit].reverse().forEach(e => bring(e, here.closest('section')))
}
</script>
</body>
</html>
";

/// Writes what stands before the boxes of the page behind a text.
pub fn push_opening(out: &mut Vec<u8>) -> Result<(), AllocError>
    ensures { OnOk result (out.new.items ≡ out.old.items ++ opening) }
{
    out.extend_from_slice(OPENING)
}

/// Writes what stands behind the boxes of the page behind a text.
pub fn push_closing(out: &mut Vec<u8>) -> Result<(), AllocError>
    ensures { OnOk result (out.new.items ≡ out.old.items ++ closing) }
{
    out.extend_from_slice(CLOSING)
}
