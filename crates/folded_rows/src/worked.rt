//! Worked programs. Each function does nothing; its contract is the computation.
ghost use Rattle.std.specs.Prelude.{◌≡◌, length};
ghost use Rattle.source_meaning.specs.Worked.{program_of, minuses, short};
ghost use Rattle.folded_rows.specs.Levels.{program_levels};
ghost use Rattle.folded_rows.specs.Worked.{folded_in, rows_due};

/// A difference of differences: its three levels are found in as many rounds, and one round fewer isn't enough.
pub fn worked_differences()
    ensures levels { program_levels (program_of minuses) ≡ 3 }
    ensures rows { folded_in 3 (program_of minuses) ≡ rows_due (program_of minuses) }
    ensures fewer { length (rows_due (program_of minuses)) ≡ 5 }
    ensures sooner { length (folded_in 2 (program_of minuses)) ≡ 7 }
{}

/// Short circuits: sides that decide, and sides that give way.
pub fn worked_short_circuits()
    ensures rows { folded_in (program_levels (program_of short)) (program_of short) ≡ rows_due (program_of short) }
{}
