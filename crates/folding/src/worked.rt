//! A worked program, and what is made of faulty operands. Each function does nothing; its contract is the computation.

ghost use Rattle.std.specs.Prelude.{◌≡◌, [], ◌∷◌, map, false};
ghost use Rattle.source_meaning.specs.declared.kinds.UnaryOp.TheVariants.{LogicalNot};
ghost use Rattle.source_meaning.specs.Ast.{num, or, truth, unary};
ghost use Rattle.source_meaning.specs.Frames.{frame};
ghost use Rattle.source_meaning.specs.Grammar.{leaves};
ghost use Rattle.source_meaning.specs.Lexemes.{tokens};
ghost use Rattle.source_meaning.specs.Meaning.{meaning, Ended};
ghost use Rattle.source_meaning.specs.Worked.{tree_of, program_of};
ghost use Rattle.folding.specs.Folding.{folded, folded_program};
ghost use Rattle.folding.specs.Worked.{eight, eight_folded};

/// The program of eight statements, folded: its tree, what both do, and the bytes of their frames.
pub fn worked_program()
    ensures text { leaves (tree_of eight) ≡ tokens eight.text }
    ensures folds { folded_program (program_of eight) ≡ eight_folded }
    ensures means { meaning (program_of eight) 1048576 1 ≡ record { outcome = Ended 7; printed = 4294967295 ∷ 2147483648 ∷ 6 ∷ 2 ∷ 9 ∷ [] } }
    ensures folded_means { meaning eight_folded 1048576 1 ≡ record { outcome = Ended 7; printed = 4294967295 ∷ 2147483648 ∷ 6 ∷ 2 ∷ 9 ∷ [] } }
    ensures frame { map (λ f. (frame f).bytes) (program_of eight) ≡ 32 ∷ [] }
    ensures folded_frame { map (λ f. (frame f).bytes) eight_folded ≡ 16 ∷ [] }
{}

/// A number in the place of a truth value, which has a fault of typing, keeps its value.
pub fn worked_faulty()
    ensures decided { folded (or 1 (num 0 5) (truth 2 false)) ≡ num 1 5 }
    ensures flipped { folded (unary 0 LogicalNot (num 1 2)) ≡ num 0 3 }
{}
