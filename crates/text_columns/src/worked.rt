//! Worked tables. The function does nothing; its contract is the computation.

ghost use Rattle.std.specs.Prelude.{◌≡◌, [], ◌∷◌, codes};
ghost use Rattle.text_columns.specs.Columns.{table_text};
ghost use Rattle.text_columns.specs.Worked.{blank, names, notes, sizes};

/// No column, columns of both kinds, one with fewer cells than its neighbour, one whose cells are empty at the end of lines, and lines that have nothing else.
pub fn worked_tables()
    ensures none { table_text [] ≡ codes "\n" }
    ensures left { table_text (names ∷ []) ≡ codes "name\nn\nparity\nf\n" }
    ensures right { table_text (sizes ∷ []) ≡ codes " size\n    7\n12345\n" }
    ensures both { table_text (names ∷ sizes ∷ []) ≡ codes "name     size\nn           7\nparity  12345\nf\n" }
    ensures last_empty { table_text (sizes ∷ notes ∷ []) ≡ codes " size  note\n    7\n12345  a b\n\n" }
    ensures first_short { table_text (sizes ∷ names ∷ []) ≡ codes " size  name\n    7  n\n12345  parity\n       f\n" }
    ensures untitled { table_text (blank ∷ blank ∷ []) ≡ codes "\n" }
{}
