// The tables of a worked source, whose arrays are made by hand.

use ast_rows::{Names, Rows, Tokens, Types};
use grammar_file::Grammar;
use llp_tables::Tables;
use pass_tables::{
    code_columns, frame_columns, name_columns, pair_columns, parse_columns, place_columns,
    row_columns, state_columns, table, token_columns, type_columns,
};
use rv_regs::{Frame, Frames};
use source_meaning::{Kind, Terminal, UnaryOp, ValueType};
use state_monoid::Dfa;
use std::alloc::{AllocError, Global};
use std::test::Fail;

const NONE: u32 = u32::MAX;

const INT: ValueType = ValueType::Int;

const SOURCE: &[u8] = b"fn f(var n: int): int { return -n; } fn main(): int { return f[1]; }";

const TERMINALS: [Terminal; 30] = [
    Terminal::FnWord,
    Terminal::Ident,
    Terminal::LeftParen,
    Terminal::VarWord,
    Terminal::Ident,
    Terminal::Colon,
    Terminal::IntWord,
    Terminal::RightParen,
    Terminal::Colon,
    Terminal::IntWord,
    Terminal::LeftBrace,
    Terminal::ReturnWord,
    Terminal::MinusSign,
    Terminal::Ident,
    Terminal::Semicolon,
    Terminal::RightBrace,
    Terminal::FnWord,
    Terminal::Ident,
    Terminal::LeftParen,
    Terminal::RightParen,
    Terminal::Colon,
    Terminal::IntWord,
    Terminal::LeftBrace,
    Terminal::ReturnWord,
    Terminal::Ident,
    Terminal::LeftBracket,
    Terminal::Digits,
    Terminal::RightBracket,
    Terminal::Semicolon,
    Terminal::RightBrace,
];

const STARTS: [u32; 30] = [
    0, 3, 4, 5, 9, 10, 12, 15, 16, 18, 22, 24, 31, 32, 33, 35, 37, 40, 44, 45, 46, 48, 52, 54, 61,
    62, 63, 64, 65, 67,
];

const LENGTHS: [u32; 30] = [
    2, 1, 1, 3, 1, 1, 3, 1, 1, 3, 1, 6, 1, 1, 1, 1, 2, 4, 1, 1, 1, 3, 1, 6, 1, 1, 1, 1, 1, 1,
];

const KINDS: [Kind; 12] = [
    Kind::Param(INT),
    Kind::Name,
    Kind::Unary(UnaryOp::Negate),
    Kind::Return,
    Kind::Block,
    Kind::Function(INT),
    Kind::Num(1),
    Kind::Call,
    Kind::Return,
    Kind::Block,
    Kind::Function(INT),
    Kind::Program,
];

const PARENTS: [u32; 12] = [5, 2, 3, 4, 5, 11, 7, 8, 9, 10, 11, 11];

const TOKENS: [u32; 12] = [4, 13, 12, 11, 10, 1, 26, 24, 23, 22, 17, NONE];

const PLACES: [u32; 12] = [0, 0, 0, 0, 1, 0, 0, 0, 0, 0, 1, 0];

const MEANT: [u32; 12] = [NONE, 0, NONE, NONE, NONE, 5, NONE, 5, NONE, NONE, 10, NONE];

const NUMBERS: [u32; 12] = [0, 1, 1, 1, 1, 1, 0, 0, 0, 0, 0, 0];

const TYPES: [Option<ValueType>; 12] = [
    None,
    Some(INT),
    Some(INT),
    None,
    None,
    None,
    Some(INT),
    Some(INT),
    None,
    None,
    None,
    None,
];

// The tokens of the source.
fn tokens(alloc: Global) -> Result<Tokens, AllocError> {
    let terminals = Vec::from_array(alloc, TERMINALS)?;
    let starts = Vec::from_array(alloc, STARTS)?;
    let lengths = Vec::from_array(alloc, LENGTHS)?;
    Ok(Tokens::new(terminals, starts, lengths))
}

// The rows of its syntax tree.
fn rows(alloc: Global) -> Result<Rows, Fail> {
    let kinds = Vec::from_array(alloc, KINDS)?;
    let parents = Vec::from_array(alloc, PARENTS)?;
    let tokens = Vec::from_array(alloc, TOKENS)?;
    let places = Vec::from_array(alloc, PLACES)?;
    Ok(Rows::from_columns(alloc, kinds, parents, tokens, places)?.ok_or("rows")?)
}

// An automaton that tells whether a word has an odd number of `a`.
fn odd(alloc: Global) -> Result<Dfa, Fail> {
    let mut table = Vec::new(alloc);
    for place in 0..512_u16 {
        let state = (place / 256) as u8;
        let is_a = place % 256 == 97;
        table.push(if is_a { u8::from(state == 0) } else { state })?;
    }
    if !Dfa::is_table(2, &table) {
        return Err("no automaton".into());
    }
    Ok(Dfa::new(2, table))
}

#[test]
fn states_of_a_word(rt: HostRuntime) -> Result<(), Fail> {
    let alloc = rt.alloc();
    let text = table(alloc, &state_columns(alloc, &odd(alloc)?, b"abba\xFF")?)?;
    assert_eq!(rt;
        text.as_slice(),
        b"\
byte  value  state  0  1
   0     97      1  1  0
   1     98      1  0  1
   2     98      1  0  1
   3     97      0  1  0
   4    255      0  0  1
"
            .as_slice()
    );
    Ok(())
}

#[test]
fn pairs_of_a_word(rt: HostRuntime) -> Result<(), Fail> {
    let alloc = rt.alloc();
    let grammar = Grammar::read(alloc, b"S -> a S b\nS ->")?;
    let tables = Tables::build(alloc, &grammar).ok().ok_or("tables")?;
    let text = table(
        alloc,
        &pair_columns(alloc, &grammar, &tables, &[1, 1, 2, 2, 3])?,
    )?;
    assert_eq!(rt;
        text.as_slice(),
        b"\
pair  before  next  closes  opens  productions
   0  BEGIN   a     S       S b    1
   1  a       a     S       S b    1
   2  a       b     S b            2
   3  b       b     b
   4  b       END   END
"
            .as_slice()
    );
    Ok(())
}

#[test]
fn tokens_of_two_functions(rt: HostRuntime) -> Result<(), Fail> {
    let alloc = rt.alloc();
    let text = table(alloc, &token_columns(alloc, SOURCE, &tokens(alloc)?)?)?;
    assert_eq!(rt;
        text.as_slice(),
        b"\
token  terminal  start  length  text
    0  fn            0       2  fn
    1  ident         3       1  f
    2  (             4       1  (
    3  var           5       3  var
    4  ident         9       1  n
    5  :            10       1  :
    6  int          12       3  int
    7  )            15       1  )
    8  :            16       1  :
    9  int          18       3  int
   10  {            22       1  {
   11  return       24       6  return
   12  minus        31       1  -
   13  ident        32       1  n
   14  ;            33       1  ;
   15  }            35       1  }
   16  fn           37       2  fn
   17  ident        40       4  main
   18  (            44       1  (
   19  )            45       1  )
   20  :            46       1  :
   21  int          48       3  int
   22  {            52       1  {
   23  return       54       6  return
   24  ident        61       1  f
   25  [            62       1  [
   26  num          63       1  1
   27  ]            64       1  ]
   28  ;            65       1  ;
   29  }            67       1  }
"
            .as_slice()
    );
    Ok(())
}

#[test]
fn parse_of_a_word(rt: HostRuntime) -> Result<(), Fail> {
    let alloc = rt.alloc();
    let grammar = Grammar::read(alloc, b"S -> a S b\nS ->")?;
    let text = table(alloc, &parse_columns(alloc, &grammar, &[1, 1, 2, 3])?)?;
    assert_eq!(rt;
        text.as_slice(),
        b"\
step  production  rule
   0           1  S -> a S b
   1           1  S -> a S b
   2           2  S ->
   3           3
"
            .as_slice()
    );
    Ok(())
}

#[test]
fn rows_of_two_functions(rt: HostRuntime) -> Result<(), Fail> {
    let alloc = rt.alloc();
    let text = table(
        alloc,
        &row_columns(alloc, SOURCE, &tokens(alloc)?, &rows(alloc)?)?,
    )?;
    assert_eq!(rt;
        text.as_slice(),
        b"\
row  kind           parent  token  place  first  text
  0  parameter int       5      4      0      0  n
  1  name                2     13      0      1  n
  2  unary -             3     12      0      1  -
  3  return              4     11      0      1  return
  4  block               5     10      1      1  {
  5  function int       11      1      0      0  f
  6  number 1            7     26      0      6  1
  7  call                8     24      0      6  f
  8  return              9     23      0      6  return
  9  block              10     22      0      6  {
 10  function int       11     17      1      6  main
 11  program             -      -      0      0
"
            .as_slice()
    );
    Ok(())
}

#[test]
fn names_of_two_functions(rt: HostRuntime) -> Result<(), Fail> {
    let alloc = rt.alloc();
    let meant = Vec::from_array(alloc, MEANT)?;
    let numbers = Vec::from_array(alloc, NUMBERS)?;
    let rows = rows(alloc)?;
    assert!(rt; rows.len() <= 4294967295);
    let text = table(
        alloc,
        &name_columns(alloc, &rows, &Names::new(meant, numbers, 10))?,
    )?;
    assert_eq!(rt;
        text.as_slice(),
        b"\
row  kind           declared at token  variable
  0  parameter int                  -         0
  1  name                           4         -
  2  unary -                        -         -
  3  return                         -         -
  4  block                          -         -
  5  function int                   -         -
  6  number 1                       -         -
  7  call                           1         -
  8  return                         -         -
  9  block                          -         -
 10  function int                   -         -
 11  program                        -         -
"
            .as_slice()
    );
    Ok(())
}

#[test]
fn types_of_two_functions(rt: HostRuntime) -> Result<(), Fail> {
    let alloc = rt.alloc();
    let types = Types::new(Vec::from_array(alloc, TYPES)?);
    let text = table(alloc, &type_columns(alloc, &rows(alloc)?, &types)?)?;
    assert_eq!(rt;
        text.as_slice(),
        b"\
row  kind           type
  0  parameter int  -
  1  name           int
  2  unary -        int
  3  return         -
  4  block          -
  5  function int   -
  6  number 1       int
  7  call           int
  8  return         -
  9  block          -
 10  function int   -
 11  program        -
"
            .as_slice()
    );
    Ok(())
}

#[test]
fn frames_of_two_functions(rt: HostRuntime) -> Result<(), Fail> {
    let alloc = rt.alloc();
    let f = Frame {
        registers: 1,
        spills: 0,
        locals: 1,
        bytes: 16,
    };
    let main = Frame {
        registers: 11,
        spills: 3,
        locals: 0,
        bytes: 64,
    };
    let frames = Frames::new(Vec::from_array(alloc, [f, main])?);
    let text = table(
        alloc,
        &frame_columns(alloc, SOURCE, &tokens(alloc)?, &rows(alloc)?, &frames)?,
    )?;
    assert_eq!(rt;
        text.as_slice(),
        b"\
function  registers  spills  variables  bytes  name
       0          1       0          1     16  f
       1         11       3          0     64  main
"
            .as_slice()
    );
    Ok(())
}

#[test]
fn pieces_of_two_functions(rt: HostRuntime) -> Result<(), Fail> {
    let alloc = rt.alloc();
    let depths = [0, 0, 0, 0, 0, 0, 1, 0, 0, 0, 0, 0];
    let sizes = [0, 1, 1, 2, 0, 12, 1, 3, 2, 0, 5, 0];
    let firsts = [9, 9, 10, 11, 13, 13, 25, 26, 29, 31, 31, 36];
    let text = table(
        alloc,
        &place_columns(alloc, &rows(alloc)?, &depths, &sizes, &firsts)?,
    )?;
    assert_eq!(rt;
        text.as_slice(),
        b"\
row  kind           depth  words  first word
  0  parameter int      0      0           9
  1  name               0      1           9
  2  unary -            0      1          10
  3  return             0      2          11
  4  block              0      0          13
  5  function int       0     12          13
  6  number 1           1      1          25
  7  call               0      3          26
  8  return             0      2          29
  9  block              0      0          31
 10  function int       0      5          31
 11  program            0      0          36
"
            .as_slice()
    );
    Ok(())
}

#[test]
fn code_of_four_words(rt: HostRuntime) -> Result<(), Fail> {
    let words = [0x00C000EF, 0xFF010113, 0x00C12083, 0xFFFFFFFF];
    let alloc = rt.alloc();
    let text = table(alloc, &code_columns(alloc, &words)?)?;
    assert_eq!(rt;
        text.as_slice(),
        b"\
word  address     code        instruction
   0  0x00010054  0x00c000ef  jal x1, 12
   1  0x00010058  0xff010113  addi x2, x2, -16
   2  0x0001005c  0x00c12083  lw x1, 12(x2)
   3  0x00010060  0xffffffff  .word 0xffffffff
"
            .as_slice()
    );
    Ok(())
}
