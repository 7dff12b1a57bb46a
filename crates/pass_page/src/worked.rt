//! Worked parts of pages. Each function does nothing; its contract is the computation.

ghost use Rattle.std.specs.Prelude.{◌≡◌, ◌++◌, [], ◌∷◌, codes, map};
ghost use Rattle.ast_rows.specs.TokenRows.{row_of};
ghost use Rattle.source_meaning.specs.Lexemes.{tokens};
ghost use Rattle.source_meaning.specs.Worked.{assigned, seven};
ghost use Rattle.text_columns.specs.Worked.{names, sizes};
ghost use Rattle.pass_tables.specs.Worked.{rows_of};
ghost use Rattle.pass_page.specs.Page.{levels, source_box, table_box, tree_box};

/// A text with three tokens and a comment, and one without a token.
pub fn worked_source()
    ensures tokens { source_box (codes " 1<2 // \"&\"\n") (map row_of (tokens (codes " 1<2 // \"&\"\n"))) ≡
        codes "<section><h2>source</h2><pre id=source>\n"
        ++ codes " <span>1</span><span>&lt;</span><span>2</span> // &quot;&amp;&quot;\n"
        ++ codes "</pre></section>\n" }
    ensures none { source_box (codes "// >") [] ≡ codes "<section><h2>source</h2><pre id=source>\n// &gt;</pre></section>\n" }
{}

/// The tree of `fn main(): int { return 7; }`, and the levels of the rows of `fn main(): int { var x: int = 1; return x + (x = 3); }`.
pub fn worked_tree()
    ensures tree { tree_box (rows_of seven) ≡
        codes "<section><h2>tree</h2><svg id=tree width=244 height=100>\n"
        ++ codes "<g transform='translate(84,14)'><path d='M-4-4h-16v20'/><text>number 7</text></g>\n"
        ++ codes "<g transform='translate(68,34)'><path d='M-4-4h-16v20'/><text>return</text></g>\n"
        ++ codes "<g transform='translate(52,54)'><path d='M-4-4h-16v20'/><text>block</text></g>\n"
        ++ codes "<g transform='translate(36,74)'><path d='M-4-4h-16v20'/><text>function int</text></g>\n"
        ++ codes "<g transform='translate(20,94)'><path d='M-4-4h-16v0'/><text>program</text></g>\n"
        ++ codes "</svg></section>\n" }
    ensures levels { levels (rows_of assigned) ≡ 4 ∷ 3 ∷ 5 ∷ 6 ∷ 6 ∷ 5 ∷ 4 ∷ 3 ∷ 2 ∷ 1 ∷ 0 ∷ [] }
{}

/// Columns of both kinds, one of which has fewer cells.
pub fn worked_table()
    ensures { table_box (codes "sizes") (names ∷ sizes ∷ []) ≡
        codes "<section><h2>sizes</h2><table id=sizes><thead><tr><th>name<th class=r>size</thead><tbody>\n"
        ++ codes "<tr><td>n<td class=r>7\n"
        ++ codes "<tr><td>parity<td class=r>12345\n"
        ++ codes "<tr><td>f<td class=r>\n"
        ++ codes "</tbody></table></section>\n" }
{}
