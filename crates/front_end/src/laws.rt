//! What the compiler says of a source, phase by phase: a law, the contract of a function that does nothing.
ghost use Rattle.std.specs.Prelude.{◌≡◌, ℕ, ◌*◌, ◌<◌, ◌≤◌, Bool, List, [], length, Some, None, nat_lt};
ghost use Rattle.std.specs.List.{find};
ghost use Rattle.limits.specs.Limits.{most_frame, most_code};
ghost use Rattle.source_meaning.specs.Lexemes.{tokens, lexical_fault, place_of};
ghost use Rattle.source_meaning.specs.Grammar.{Tree, Prog, ast, leaves};
ghost use Rattle.source_meaning.specs.Ast.{Function as SourceFunction};
ghost use Rattle.source_meaning.specs.Scope.{Fault, scope_faults, earliest};
ghost use Rattle.source_meaning.specs.Shape.{shape_faults};
ghost use Rattle.source_meaning.specs.Typing.{type_faults};
ghost use Rattle.source_meaning.specs.Frames.{frame};
ghost use Rattle.rv_code.specs.Code.{instructions};
ghost use Rattle.front_end.specs.Front.{IsChecked};
ghost use Rattle.verdict.specs.Verdict.{IsVerdict, Limited, Accepted, folded_if};

/// Of a source without a fault of the phases up to types, and of its program with folded constants or as they are: the first function
/// whose frame is too large is its limit, else code that is too large, and else it is a program.
pub fn limits_come_last()
    ensures frame { (fold : Bool) (text : List ℕ) (t : Tree Prog) (f : SourceFunction) → IsChecked text t → find (λ g. nat_lt most_frame (frame g).bytes) (folded_if fold (ast t)) ≡ Some f
        → IsVerdict fold text (Limited 602 (place_of text (tokens text) f.at) (frame f).bytes) }
    ensures code { (fold : Bool) (text : List ℕ) (t : Tree Prog) → IsChecked text t → find (λ g. nat_lt most_frame (frame g).bytes) (folded_if fold (ast t)) ≡ None
        → most_code < 4 * length (instructions (folded_if fold (ast t))) → IsVerdict fold text (Limited 603 (length text) (4 * length (instructions (folded_if fold (ast t))))) }
    ensures accepted { (fold : Bool) (text : List ℕ) (t : Tree Prog) → IsChecked text t → find (λ g. nat_lt most_frame (frame g).bytes) (folded_if fold (ast t)) ≡ None
        → 4 * length (instructions (folded_if fold (ast t))) ≤ most_code → IsVerdict fold text (Accepted (folded_if fold (ast t))) }
{}
