//! Worked tables. Each function does nothing; its contract is the computation.

ghost use Rattle.std.specs.Prelude.{◌≡◌, ◌++◌, [], ◌∷◌, codes, map};
ghost use Rattle.source_meaning.specs.Frames.{depths, frame};
ghost use Rattle.source_meaning.specs.Grammar.{grammar};
ghost use Rattle.source_meaning.specs.Scope.{bindings};
ghost use Rattle.source_meaning.specs.Typing.{types};
ghost use Rattle.source_meaning.specs.Worked.{assigned, nested, nothing, program_of, seven};
ghost use Rattle.pass_tables.specs.Tables.{bound_tokens, code_table, declared_numbers, frame_table, function_names, name_table, pair_table, parse_table, place_table, row_table, state_table, token_table, type_table};
ghost use Rattle.pass_tables.specs.Worked.{brackets, entry_of_brackets, meant_in_assigned, numbers_in_assigned, odd, parse_of, rows_of, tokens_of};

/// The states of an automaton that tells whether a word has an odd number of `a`, along two words.
pub fn worked_states()
    ensures word { state_table odd (codes "abba") ≡
        codes "byte  value  state  0  1\n"
        ++ codes "   0     97      1  1  0\n"
        ++ codes "   1     98      1  0  1\n"
        ++ codes "   2     98      1  0  1\n"
        ++ codes "   3     97      0  1  0\n" }
    ensures empty { state_table odd [] ≡ codes "byte  value  state  0  1\n" }
{}

/// The tokens of `fn main(): int { return 7; }`.
pub fn worked_tokens()
    ensures { token_table seven.text (tokens_of seven) ≡
        codes "token  terminal  start  length  text\n"
        ++ codes "    0  fn            0       2  fn\n"
        ++ codes "    1  ident         3       4  main\n"
        ++ codes "    2  (             7       1  (\n"
        ++ codes "    3  )             8       1  )\n"
        ++ codes "    4  :             9       1  :\n"
        ++ codes "    5  int          11       3  int\n"
        ++ codes "    6  {            15       1  {\n"
        ++ codes "    7  return       17       6  return\n"
        ++ codes "    8  num          24       1  7\n"
        ++ codes "    9  ;            25       1  ;\n"
        ++ codes "   10  }            27       1  }\n" }
{}

/// The pairs of `a a b b` by the grammar `S -> a S b`, `S ->`, and of a word with a pair that has no entry.
pub fn worked_pairs()
    ensures sentence { pair_table brackets entry_of_brackets (1 ∷ 1 ∷ 2 ∷ 2 ∷ 3 ∷ []) ≡
        codes "pair  before  next  closes  opens  productions\n"
        ++ codes "   0  BEGIN   a     S       S b    1\n"
        ++ codes "   1  a       a     S       S b    1\n"
        ++ codes "   2  a       b     S b            2\n"
        ++ codes "   3  b       b     b\n"
        ++ codes "   4  b       END   END\n" }
    ensures no_entry { pair_table brackets entry_of_brackets (2 ∷ 1 ∷ []) ≡
        codes "pair  before  next  closes  opens  productions\n"
        ++ codes "   0  BEGIN   b     b\n"
        ++ codes "   1  b       a\n" }
{}

/// The left parse of `fn main(): int { }`, and numbers that no production has.
pub fn worked_parses()
    ensures nothing { parse_table grammar (parse_of nothing) ≡
        codes "step  production  rule\n"
        ++ codes "   0           1  Prog -> Fn Prog\n"
        ++ codes "   1           3  Fn -> fn ident ( Params ) : Type Block\n"
        ++ codes "   2           5  Params ->\n"
        ++ codes "   3           9  Type -> int\n"
        ++ codes "   4          11  Block -> { Stmts }\n"
        ++ codes "   5          13  Stmts ->\n"
        ++ codes "   6           2  Prog ->\n" }
    ensures no_production { parse_table grammar (0 ∷ 57 ∷ []) ≡
        codes "step  production  rule\n"
        ++ codes "   0           0\n"
        ++ codes "   1          57\n" }
{}

/// The rows of `fn main(): int { return 7; }`.
pub fn worked_rows()
    ensures { row_table seven.text (tokens_of seven) (rows_of seven) ≡
        codes "row  kind          parent  token  place  first  text\n"
        ++ codes "  0  number 7           1      8      0      0  7\n"
        ++ codes "  1  return             2      7      0      0  return\n"
        ++ codes "  2  block              3      6      0      0  {\n"
        ++ codes "  3  function int       4      1      0      0  main\n"
        ++ codes "  4  program            -      -      0      0\n" }
{}

/// What the names of `fn main(): int { var x: int = 1; return x + (x = 3); }` mean.
pub fn worked_names()
    ensures bound { bound_tokens (rows_of assigned) meant_in_assigned ≡ bindings (program_of assigned) }
    ensures table { name_table (rows_of assigned) (bindings (program_of assigned)) (declared_numbers (rows_of assigned) numbers_in_assigned) ≡
        codes "row  kind          declared at token  variable\n"
        ++ codes "  0  number 1                      -         -\n"
        ++ codes "  1  variable int                  -         0\n"
        ++ codes "  2  name                          8         -\n"
        ++ codes "  3  name                          8         -\n"
        ++ codes "  4  number 3                      -         -\n"
        ++ codes "  5  assign                        -         -\n"
        ++ codes "  6  binary +                      -         -\n"
        ++ codes "  7  return                        -         -\n"
        ++ codes "  8  block                         -         -\n"
        ++ codes "  9  function int                  -         -\n"
        ++ codes " 10  program                       -         -\n" }
{}

/// The types in `fn main(): int { var x: int = 1; return x + (x = 3); }`.
pub fn worked_types()
    ensures { type_table (rows_of assigned) (types (program_of assigned)) ≡
        codes "row  kind          type\n"
        ++ codes "  0  number 1      int\n"
        ++ codes "  1  variable int  -\n"
        ++ codes "  2  name          int\n"
        ++ codes "  3  name          int\n"
        ++ codes "  4  number 3      int\n"
        ++ codes "  5  assign        int\n"
        ++ codes "  6  binary +      int\n"
        ++ codes "  7  return        -\n"
        ++ codes "  8  block         -\n"
        ++ codes "  9  function int  -\n"
        ++ codes " 10  program       -\n" }
{}

/// The frames of two functions, the second of which has more slots than registers.
pub fn worked_frames()
    ensures { frame_table (function_names nested.text (tokens_of nested) (rows_of nested)) (map frame (program_of nested)) ≡
        codes "function  registers  spills  variables  bytes  name\n"
        ++ codes "       0          1       0          1     16  f\n"
        ++ codes "       1         11       3          0     64  main\n" }
{}

/// The pieces of `fn main(): int { return 7; }`, behind nine words that belong to no row.
pub fn worked_pieces()
    ensures { place_table (rows_of seven) (depths (program_of seven)) (1 ∷ 2 ∷ 0 ∷ 5 ∷ 0 ∷ []) (9 ∷ 10 ∷ 12 ∷ 12 ∷ 17 ∷ []) ≡
        codes "row  kind          depth  words  first word\n"
        ++ codes "  0  number 7          0      1           9\n"
        ++ codes "  1  return            0      2          10\n"
        ++ codes "  2  block             0      0          12\n"
        ++ codes "  3  function int      0      5          12\n"
        ++ codes "  4  program           0      0          17\n" }
{}

/// Three instructions, and a word that is none.
pub fn worked_code()
    ensures { code_table (0x00C000EF ∷ 0x05D00893 ∷ 0x00000073 ∷ 0x00000000 ∷ []) ≡
        codes "word  address     code        instruction\n"
        ++ codes "   0  0x00010054  0x00c000ef  jal x1, 12\n"
        ++ codes "   1  0x00010058  0x05d00893  addi x17, x0, 93\n"
        ++ codes "   2  0x0001005c  0x00000073  ecall\n"
        ++ codes "   3  0x00010060  0x00000000  .word 0x00000000\n" }
{}
