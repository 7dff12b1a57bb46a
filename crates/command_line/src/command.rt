// What the program can be asked to do.

use crate::word::Word;

/// A pass of the compiler, whose arrays can be shown.
#[derive(Clone, Copy, PartialEq, Eq, Debug)]
pub enum Pass {
    /// The states of the lexer's automaton.
    States,
    /// The tokens of the source.
    Tokens,
    /// The pairs of neighbouring tokens, and what each tells the parser.
    Pairs,
    /// The left parse of the tokens.
    Parse,
    /// The rows of the syntax tree.
    Rows,
    /// What the names mean.
    Names,
    /// The types of the expressions.
    Types,
    /// The frames of the functions.
    Frames,
    /// The places of the rows' words in the code.
    Places,
    /// The words of the code.
    Code,
    /// All of these, one behind the other.
    All,
}

/// What the program is asked to do.
#[derive(Debug, Drop)]
pub enum Command {
    /// Compiles the source on the input to an executable file on the output.
    Build {
        /// Whether the constants of the program are folded.
        fold: bool,
    },
    /// Compiles the source on the input, and runs its file on the machine for at most `steps` steps.
    Run {
        /// The most steps.
        steps: u32,
        /// Whether the constants of the program are folded.
        fold: bool,
    },
    /// Shows the arrays of a pass for the source on the input, as tables.
    Show {
        /// The pass.
        pass: Pass,
    },
    /// Shows the source, its syntax tree and the arrays of all passes, but for states and pairs, as one page of HTML.
    Page,
    /// Compiles each of the sources on the input, which stand there as records, and writes an answer for each.
    Batch,
    /// Runs the executable file on the input on the machine for at most `steps` steps.
    Emu {
        /// The most steps.
        steps: u32,
    },
    /// Writes the listing of the code of the executable file on the input.
    Dump,
    /// Assembles the listing on the input to an executable file on the output.
    Asm,
    /// Reads the grammar file on the input, and tells how large its parse tables are, and the left parse of a word.
    Table {
        /// The word, where one is to be parsed.
        word: Option<Word>,
        /// Whether the entries of the tables are listed.
        entries: bool,
    },
    /// Makes a source text from a seed, compiles it, runs its file on the machine for a million steps, and tells how large all
    /// became and how the run ended. It reads no input.
    Drill {
        /// What the numbers of the text are drawn from.
        seed: u32,
        /// How many functions the text has beside `main`, at least one.
        functions: u32,
    },
    /// Tells what a diagnostic means, a source that has it, and how to fix it. It reads no input.
    Explain {
        /// The code of the diagnostic or of the limit.
        code: u32,
    },
}
