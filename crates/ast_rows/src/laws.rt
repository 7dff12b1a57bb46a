//! The laws, each the contract of a function that does nothing.
ghost use Rattle.std.specs.Prelude.{◌≡◌};
ghost use Rattle.source_meaning.specs.Ast.{Program as Source};
ghost use Rattle.source_meaning.specs.Rows.{post, program_node};
ghost use Rattle.ast_rows.specs.NodeRows.{counts_of, lows_of, parent_numbers};
ghost use Rattle.ast_rows.specs.Subtrees.{node_counts, node_lows};

/// What the parents tell of a program's rows: where the subtree of each row's node begins, and how many children the node has.
pub fn parents_tell_subtrees()
    ensures lows { (p : Source) → lows_of (parent_numbers 0 (post p)) ≡ node_lows 0 (program_node p) }
    ensures counts { (p : Source) → counts_of (parent_numbers 0 (post p)) ≡ node_counts (program_node p) }
{}
