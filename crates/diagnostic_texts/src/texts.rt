// The texts.

/// A code; what it means; where its place is; a source that has it, or what such a source has; the line and the column of the place in that source; and how
/// to fix it. The last text and the example are whole lines. It is a tuple, since the definitions of `specs/` read constants of plain types alone.
pub(crate) type Row = (
    u32,
    &'static str,
    &'static str,
    &'static str,
    Option<(u32, u32)>,
    &'static str,
);

/// The texts of all codes, the codes ascending. The table of diagnostics in `docs/LANGUAGE.md` has their meanings and places, too.
pub(crate) const TEXTS: &[Row] = &[
    (
        101,
        "a byte begins no lexeme",
        "the byte",
        "\
fn main(): int {
    return 1.5;
}
",
        Some((2, 13)),
        "\
Remove the byte, or replace it by something that the language has. All numbers
are whole, and there are no texts: \"a\" and 'a' begin no lexeme either.
",
    ),
    (
        102,
        "a number above 2147483647",
        "the number",
        "\
fn main(): int {
    return 2147483648;
}
",
        Some((2, 12)),
        "\
An int has 32 bits, and 2147483647 is the greatest one. The least one has no
number of its own: write it as -2147483647 - 1.
",
    ),
    (
        201,
        "no program begins with the tokens up to this one",
        "the token, or the end",
        "\
fn main(): int {
    var n: int = 1
    return n;
}
",
        Some((3, 5)),
        "\
Look at what comes before the place: usually something is missing there, like
the ; after the 1 here. What stands at the place may also be one too many, or a
keyword where a name is wanted. A call has square brackets: f[1].
",
    ),
    (
        301,
        "an `else` or `else if` with no `if` or `else if` right before it",
        "`else`",
        "\
fn main(): int {
    var n: int = 3;
    while n > 0 { n = n - 1; }
    else { n = 1; }
    return n;
}
",
        Some((4, 5)),
        "\
Put it right after the block of the if, in the same block. A while has no else,
and no else follows the else that ends a chain.
",
    ),
    (
        302,
        "the left of `=` isn't a name",
        "`=`",
        "\
fn main(): int {
    var n: int = 1;
    n + 1 = n;
    return n;
}
",
        Some((3, 11)),
        "\
Put the variable on the left, and its new value on the right: n = n + 1. To ask
whether two values are the same, write ==.
",
    ),
    (
        303,
        "more than 8 parameters",
        "the ninth's name",
        "\
fn sum(var a: int, var b: int, var c: int, var d: int, var e: int,
       var f: int, var g: int, var h: int, var i: int): int {
    return a + b + c + d + e + f + g + h + i;
}
fn main(): int {
    return sum[1, 2, 3, 4, 5, 6, 7, 8, 9];
}
",
        Some((2, 48)),
        "\
Split the function into several that take fewer, here sums of four numbers, or
let it compute what follows from its other parameters.
",
    ),
    (
        401,
        "a function is defined again",
        "the later name",
        "\
fn twice(var n: int): int { return n + n; }
fn twice(var n: int): int { return 2 * n; }
fn main(): int { return twice[4]; }
",
        Some((2, 4)),
        "\
Give one of the two another name, or remove it. Different parameters are not
enough: a function is known by its name alone.
",
    ),
    (
        402,
        "a variable or parameter is declared again in one block",
        "the later name",
        "\
fn main(): int {
    var n: int = 1;
    var n: int = 2;
    return n;
}
",
        Some((3, 9)),
        "\
To give the variable another value, assign to it: n = 2. For a second variable
take another name, or declare it in a block within this one.
",
    ),
    (
        403,
        "an unknown variable",
        "the name",
        "\
fn main(): int {
    { var n: int = 1; }
    return n;
}
",
        Some((3, 12)),
        "\
Check the spelling. Declare the variable before it is used, and in a block that
is still open: a variable ends with the block in which it is declared.
",
    ),
    (
        404,
        "an unknown function",
        "the name",
        "\
fn double(var n: int): int { return 2 * n; }
fn main(): int { return duoble[4]; }
",
        Some((2, 25)),
        "\
Check the spelling, or define the function. Its definition may come before or
after the call.
",
    ),
    (
        405,
        "there is no function `main`",
        "the end",
        "\
fn start(): int { return 0; }
",
        Some((2, 1)),
        "\
Execution starts at main, so a program has to have it: fn main(): int { .. }.
",
    ),
    (
        406,
        "`main` has parameters, or isn't int",
        "its name",
        "\
fn main(var n: int): int { return n; }
",
        Some((1, 4)),
        "\
Write fn main(): int. There is nothing that main could get from outside: what it
begins with is declared in it, as in var n: int = 10.
",
    ),
    (
        501,
        "an operand of a wrong type",
        "the operator",
        "\
fn main(): int {
    var n: int = 3;
    if 0 < n < 5 { return 1; }
    return 0;
}
",
        Some((3, 14)),
        "\
Arithmetic and < <= > >= take ints, && || and ! take bools, and == and != take
two values of one type. Here 0 < n is a bool, which can't be compared with 5:
write 0 < n && n < 5.
",
    ),
    (
        502,
        "a wrong number of arguments",
        "the call's name",
        "\
fn area(var width: int, var height: int): int { return width * height; }
fn main(): int { return area[3]; }
",
        Some((2, 25)),
        "\
Give the call one argument for each parameter: area[3, 4].
",
    ),
    (
        503,
        "an argument of another type than its parameter",
        "the argument (its operator, if it has one)",
        "\
fn twice(var n: int): int { return 2 * n; }
fn main(): int { return twice[true]; }
",
        Some((2, 31)),
        "\
Give the call a value of the parameter's type, or give the parameter another
type. A bool isn't turned into a number, nor a number into a bool.
",
    ),
    (
        504,
        "a condition isn't bool",
        "`if` or `while`",
        "\
fn main(): int {
    var n: int = 3;
    while n { n = n - 1; }
    return n;
}
",
        Some((3, 5)),
        "\
A number is no condition. Say what it is compared with: while n > 0.
",
    ),
    (
        505,
        "a returned value isn't of the function's type",
        "`return`",
        "\
fn is_even(var n: int): bool { return n % 2; }
fn main(): int { return 0; }
",
        Some((1, 32)),
        "\
Return a value of the type that is written after the parameters: here, return
n % 2 == 0. Or change that type, and the calls with it.
",
    ),
    (
        506,
        "a value isn't of the variable's type",
        "`=`, or the declared name",
        "\
fn main(): int {
    var found: bool = 0;
    return 1;
}
",
        Some((2, 9)),
        "\
Give the variable a value of its type, here false, or declare it with the type
of the value.
",
    ),
    (
        507,
        "a printed value isn't int",
        "`print`",
        "\
fn main(): int {
    print 1 < 2;
    return 0;
}
",
        Some((2, 5)),
        "\
Only numbers are printed. To print a condition, choose a number for each side:
if 1 < 2 { print 1; } else { print 0; }.
",
    ),
    (
        601,
        "more than 16,777,216 bytes",
        "the byte after them",
        "\
A source of 16,777,217 bytes has it, whatever they are: comments and white
space count, too.
",
        None,
        "\
Make the source shorter. Statements that it repeats can become one function.
",
    ),
    (
        602,
        "a frame above 65,520 bytes, with `--fold` in the folded program",
        "the function's name",
        "\
A function with 16,379 variables has it. A frame has four bytes for each
variable and parameter, and some more for what the function has to keep.
",
        None,
        "\
Split the function into several. Variables of different blocks don't share their
places, so it doesn't help to put them into blocks of their own.
",
    ),
    (
        603,
        "code above 16,777,216 bytes, with `--fold` that of the folded program",
        "the end",
        "\
A program with 1,100,000 statements n = n + 1; has it, since each of them is
four instructions of four bytes.
",
        None,
        "\
Replace statements that are repeated many times by a loop, or by a function that
is called.
",
    ),
];
