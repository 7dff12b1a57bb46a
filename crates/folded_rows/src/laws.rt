//! The laws, each the contract of a function that does nothing.
ghost use Rattle.std.specs.Prelude.{◌≡◌, ℕ, [], List, Option, None, slice_index_or};
ghost use Rattle.source_meaning.specs.Ast.{Program as Source};
ghost use Rattle.source_meaning.specs.Rows.{post};
ghost use Rattle.source_meaning.specs.Scope.{scope_faults};
ghost use Rattle.source_meaning.specs.Shape.{shape_faults};
ghost use Rattle.ast_rows.specs.NodeRows.{AreTold};
ghost use Rattle.row_rules.specs.Means.{AreNames};
ghost use Rattle.folding.specs.Complete.{IsCompleteProgram};
ghost use Rattle.folding.specs.Folding.{folded_program};
ghost use Rattle.folded_rows.specs.Levels.{AreHeights, AreLinked, program_levels};
ghost use Rattle.folded_rows.specs.Columns.{AreConstants, columns_of, folding, new_declared, new_meant, new_rows, rank};

use ast_rows::parents_tell_subtrees;
use folding::folding_is_complete;
use row_laws::{evals_settle, marks_tell_programs};
use row_rules::shaped_is_named;

/// The columns of a program's rows give the rows of the folded program, by the constants that its rows are.
pub fn folded_rows_are()
    ensures { (p : Source) (values : List (Option ℕ)) → shape_faults p ≡ [] → AreTold (post p) → AreConstants (columns_of (post p)) values
        → new_rows (columns_of (post p)) values ≡ post (folded_program p) }
{
    shaped_is_named();
    parents_tell_subtrees();
    evals_settle();
    marks_tell_programs();
}

/// And what the names of a program without a fault of scope mean tells what those of the folded program do: each one that is left has the
/// declaration that it had, under its new number.
pub fn folded_names_are()
    ensures { (p : Source) (values : List (Option ℕ)) (meant : List (Option ℕ)) (numbers : List ℕ) (main end : ℕ) → shape_faults p ≡ [] → scope_faults end p ≡ [] → AreTold (post p)
        → AreConstants (columns_of (post p)) values → AreNames p (λ k. slice_index_or meant k None) (λ k. slice_index_or numbers k 0) main
        → AreNames (folded_program p) (λ k. slice_index_or (new_meant (columns_of (post p)) values meant) k None)
        (λ k. slice_index_or (new_declared (columns_of (post p)) values numbers) k 0) (rank (columns_of (post p)) values main) }
{
    shaped_is_named();
    parents_tell_subtrees();
}

/// The operands of a program's operators are their children, and its rows have heights, so constants are found in as many rounds as the
/// highest expression has levels.
pub fn rows_have_levels()
    ensures linked { (p : Source) → AreTold (post p) → AreLinked (columns_of (post p)) }
    ensures heights { (p : Source) → AreTold (post p) → (height : ℕ → ℕ) × AreHeights (columns_of (post p)) (program_levels p) height }
{
    parents_tell_subtrees();
}

/// Where no operator folds as it stands, nothing is left to fold, and a program is its folded one.
pub fn nothing_folds()
    ensures complete { (p : Source) → AreTold (post p) → folding (columns_of (post p)) ≡ [] → IsCompleteProgram p }
    ensures same { (p : Source) → AreTold (post p) → folding (columns_of (post p)) ≡ [] → folded_program p ≡ p }
{
    parents_tell_subtrees();
    folding_is_complete();
}
