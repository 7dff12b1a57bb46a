//! The laws, each the contract of a function that does nothing.

ghost use Rattle.std.specs.Prelude.{ℕ, ◌≡◌, List, ◌<◌, ◌≤◌, length};
ghost use Rattle.source_meaning.specs.Ast.{Program, Function};
ghost use Rattle.source_meaning.specs.Frames.{frame};
ghost use Rattle.rv_code.specs.Code.{Layout, Short, Long, most_short, near_frame, instructions_in, layout_of, lowest_store};
ghost use Rattle.rv_code.specs.Widths.{program_width};

/// How many words a program has in a layout.
pub fn widths()
    ensures { (layout : Layout) (p : Program) → length (instructions_in layout p) ≡ program_width layout p }
{}

/// The short layout is used exactly where a program's words fit it.
pub fn used_layout()
    ensures short { (p : Program) → length (instructions_in Short p) ≤ most_short → layout_of p ≡ Short }
    ensures long { (p : Program) → most_short < length (instructions_in Short p) → layout_of p ≡ Long }
{}

/// The lowest word of a frame is written by a function's second word, or by its fourth where the frame is far.
pub fn lowest_stores()
    ensures near { (f : Function) → (frame f).bytes ≤ near_frame → lowest_store f ≡ 1 }
    ensures far { (f : Function) → near_frame < (frame f).bytes → lowest_store f ≡ 3 }
{}
