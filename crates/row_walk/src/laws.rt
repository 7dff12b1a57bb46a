// Laws on the walk, each the contract of a function that does nothing.

ghost use Rattle.std.specs.Prelude.{◌≡◌, ℕ, suc, ◌^◌, ◌<◌, [], fold, min, false, None, length, map, if◌then◌else◌};
ghost use Rattle.std.specs.List.{range_with_len};
ghost use Rattle.source_meaning.specs.Lexemes.{Token};
ghost use Rattle.source_meaning.specs.Grammar.{Tree, Prog, ast, leaves, left_parse};
ghost use Rattle.source_meaning.specs.Shape.{shape_faults};
ghost use Rattle.source_meaning.specs.Rows.{post};
ghost use Rattle.phase_faults.specs.Keys.{no_key, IsLeastKey};
ghost use Rattle.row_laws.specs.Emitted.{part};
ghost use Rattle.row_laws.specs.Evals.{is_eval, settled};
ghost use Rattle.row_laws.specs.Climbed.{mark_at, row_by_lists, settled_at};
ghost use Rattle.row_laws.specs.Faults.{number_or};
ghost use Rattle.row_laws.specs.Faulted.{fault_keys};
ghost use Rattle.row_walk.specs.Walk.{made_by};
ghost use Rattle.row_walk.specs.Marks.{mark_of, walk_marks};

use row_laws::{evals_settle, marks_tell_programs, tokens_are_cut};

/// The rows that a walk over a left parse closes, in order, are those of the tree: from the productions and the tokens alone.
pub fn walks_give_rows()
    ensures emitted { (r : Tree Prog) (d : Token) → settled None (map (mark_of d (left_parse r) (leaves r)) (made_by (left_parse r))) ≡ (part r).rows 0 0 false [] }
    ensures rows { (r : Tree Prog) (d : Token) → post (ast r) ≡ map (row_by_lists (walk_marks d (left_parse r) (leaves r))) (range_with_len 0 (length (walk_marks d (left_parse r) (leaves r)))) }
    ensures faults { (r : Tree Prog) (d : Token)
        → ((i : ℕ) → i < length (walk_marks d (left_parse r) (leaves r)) → number_or (settled_at (walk_marks d (left_parse r) (leaves r)) i) < 2 ^ 32)
        → IsLeastKey (shape_faults (ast r)) (fold min no_key (fault_keys (walk_marks d (left_parse r) (leaves r)))) }
    ensures first { (r : Tree Prog) (d : Token) → settled_at (walk_marks d (left_parse r) (leaves r)) 0 ≡ (mark_at (walk_marks d (left_parse r) (leaves r)) 0).token }
    ensures next { (r : Tree Prog) (d : Token) (k : ℕ) → suc k < length (walk_marks d (left_parse r) (leaves r))
        → settled_at (walk_marks d (left_parse r) (leaves r)) (suc k)
        ≡ (if is_eval (mark_at (walk_marks d (left_parse r) (leaves r)) (suc k)).kind then (mark_at (walk_marks d (left_parse r) (leaves r)) k).token
        else (mark_at (walk_marks d (left_parse r) (leaves r)) (suc k)).token) }
{
    tokens_are_cut();
    marks_tell_programs();
    evals_settle();
}
