// Members, and rows of them.

ghost use Rattle.std.specs.Prelude.{◌≡◌, ◌∷◌, ◌==◌, ◌&&◌};
ghost use Rattle.std.specs.List.{list_all};
ghost use Rattle.llp_tables.specs.Certificate.{all_behind, all_in, has, is_function, same_symbols, says, within};
ghost use Rattle.grammar_certificate.specs.Checks.{agree};

use crate::certificate::Member;
use grammar_file::Symbol;

/// Whether the number is in the list.
pub(crate) fn has(xs: &[u16], x: u16) -> bool
    ensures { result ≡ has xs.now x }
{
    xs.iter().any(|y| *y == x)
}

/// Whether all of one list are in the other.
pub(crate) fn within(xs: &[u16], ys: &[u16]) -> bool
    ensures { result ≡ within xs.now ys.now }
{
    xs.iter().all(|x| has(ys, *x))
}

#[tactic(auto, using(crate::proofs::Steps::symbols_compared))]
fn same_symbols(xs: &[Symbol], ys: &[Symbol]) -> bool
    ensures { result ≡ same_symbols xs.now ys.now }
{
    xs == ys
}

// Whether the stack is this symbol upon the others.
fn is_put_on(stack: &[Symbol], x: Symbol, below: &[Symbol]) -> bool
    ensures { result ≡ same_symbols stack.now (x ∷ below.now) }
{
    match stack.split_first() {
        Some((top, rest)) => *top == x && same_symbols(rest, below),
        None => false,
    }
}

// Whether two members are for different terminals, or close the same.
fn agree(e: &Member, f: &Member) -> bool
    ensures { result ≡ agree e.now f.now }
{
    e.ahead() != f.ahead() || same_symbols(e.closes(), f.closes())
}

/// Whether all of the row agree with the member.
pub(crate) fn agrees_with(row: &[Member], e: &Member) -> bool
    ensures { result ≡ list_all (agree e.now) row.now }
{
    row.iter().all(|f| agree(e, f))
}

/// Whether the row has at most one member for each terminal that comes next.
pub(crate) fn is_function(row: &[Member]) -> bool
    ensures { result ≡ is_function row.now }
{
    row.iter().all(|e| agrees_with(row, e))
}

fn is_member_on(e: &Member, b: u16, x: Symbol, below: &[Symbol]) -> bool
    ensures { result ≡ (e.now.0 == b && same_symbols e.now.1 (x ∷ below.now)) }
{
    e.ahead() == b && is_put_on(e.closes(), x, below)
}

/// Whether the row says for b that this symbol is closed, and the others below it.
pub(crate) fn says_on(row: &[Member], b: u16, x: Symbol, below: &[Symbol]) -> bool
    ensures { result ≡ says row.now b (x ∷ below.now) }
{
    row.iter().any(|e| is_member_on(e, b, x, below))
}

fn is_same(e: &Member, f: &Member) -> bool
    ensures { result ≡ (e.now.0 == f.now.0 && same_symbols e.now.1 f.now.1) }
{
    e.ahead() == f.ahead() && same_symbols(e.closes(), f.closes())
}

// Whether the row has the member.
fn says(row: &[Member], f: &Member) -> bool
    ensures { result ≡ says row.now f.now.0 f.now.1 }
{
    row.iter().any(|e| is_same(e, f))
}

/// Whether all of one row are in another one, each behind the symbol.
pub(crate) fn all_behind(x: Symbol, row: &[Member], there: &[Member]) -> bool
    ensures { result ≡ all_behind x row.now there.now }
{
    row.iter().all(|e| says_on(there, e.ahead(), x, e.closes()))
}

/// Whether all of one row are in another one.
pub(crate) fn all_in(row: &[Member], there: &[Member]) -> bool
    ensures { result ≡ all_in row.now there.now }
{
    row.iter().all(|e| says(there, e))
}
