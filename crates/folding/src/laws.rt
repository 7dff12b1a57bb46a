//! Laws about the definition. Each function does nothing; its contract is the law.

ghost use Rattle.std.specs.Prelude.{◌≡◌, ◌≤◌, ℕ, List, []};
ghost use Rattle.source_meaning.specs.declared.kinds.UnaryOp.{UnaryOp as Unary};
ghost use Rattle.source_meaning.specs.declared.kinds.BinaryOp.{BinaryOp as Binary};
ghost use Rattle.source_meaning.specs.Ast.{Function as SourceFunction, Program as Source};
ghost use Rattle.source_meaning.specs.Frames.{frame};
ghost use Rattle.source_meaning.specs.Meaning.{meaning, Deep, Ended, More, Stopped};
ghost use Rattle.source_meaning.specs.Scope.{main_meant, scope_faults};
ghost use Rattle.source_meaning.specs.Shape.{shape_faults};
ghost use Rattle.source_meaning.specs.Typing.{type_faults};
ghost use Rattle.source_meaning.specs.Operators.{unary_value, binary_value};
ghost use Rattle.folding.specs.Complete.{IsCompleteProgram};
ghost use Rattle.folding.specs.Folding.{folded_function, folded_program};
ghost use Rattle.folding.specs.Keeps.{IsFront, Keeps, Means};
ghost use Rattle.folding.specs.Uses.{AreSome, uses};
ghost use Rattle.folding.specs.Words.{IsWord, ProgramHasWords};

/// No function's frame is larger.
pub fn frames_shrink()
    ensures registers { (f : SourceFunction) → (frame (folded_function f)).registers ≤ (frame f).registers }
    ensures spills { (f : SourceFunction) → (frame (folded_function f)).spills ≤ (frame f).spills }
    ensures locals { (f : SourceFunction) → (frame (folded_function f)).locals ≡ (frame f).locals }
    ensures bytes { (f : SourceFunction) → (frame (folded_function f)).bytes ≤ (frame f).bytes }
{}

/// For every stack and every bound: where a program ends or goes on, the folded one does the same after the same output; where
/// it overruns its stack, its output is a front of the folded one's.
pub fn folding_keeps()
    ensures ends { (p : Source) (stack n v : ℕ) (out : List ℕ) → Means p stack n (Ended v) out → Means (folded_program p) stack n (Ended v) out }
    ensures goes_on { (p : Source) (stack n : ℕ) (out : List ℕ) → Means p stack n (Stopped More) out → Means (folded_program p) stack n (Stopped More) out }
    ensures deep { (p : Source) (stack n : ℕ) (out : List ℕ) → Means p stack n (Stopped Deep) out → IsFront out (meaning (folded_program p) stack n).printed }
    ensures keeps { (p : Source) (stack n : ℕ) → Keeps (meaning p stack n) (meaning (folded_program p) stack n) }
{}

/// The value of an operator on words is a word. So each number of a folded program is one where those of the program are.
pub fn values_are_words()
    ensures unary { (op : Unary) (x : ℕ) → IsWord x → IsWord (unary_value op x) }
    ensures binary { (op : Binary) (x y : ℕ) → IsWord x → IsWord y → IsWord (binary_value op x y) }
    ensures constants { (p : Source) → ProgramHasWords p → ProgramHasWords (folded_program p) }
{}

/// A program without a fault of shape, of scope or of typing has none after folding.
pub fn folded_is_clean()
    ensures shapes { (p : Source) → shape_faults p ≡ [] → shape_faults (folded_program p) ≡ [] }
    ensures scopes { (end : ℕ) (p : Source) → scope_faults end p ≡ [] → scope_faults end (folded_program p) ≡ [] }
    ensures types { (p : Source) → type_faults p ≡ [] → type_faults (folded_program p) ≡ [] }
{}

/// Each use of a variable or of a function that is left has the declaration that it had, and the program starts where it did.
pub fn uses_stay()
    ensures uses { (p : Source) → AreSome (uses (folded_program p)) (uses p) }
    ensures main { (p : Source) → main_meant (folded_program p) ≡ main_meant p }
{}

/// In a folded program nothing is left to fold, and a program in which nothing is stays as it is. So folding twice is folding once.
pub fn folding_is_complete()
    ensures nothing_left { (p : Source) → IsCompleteProgram (folded_program p) }
    ensures nothing_else { (p : Source) → IsCompleteProgram p → folded_program p ≡ p }
    ensures again { (p : Source) → folded_program (folded_program p) ≡ folded_program p }
{}
