// The part of one terminal: no two places right after it have different members for one terminal that comes next.

ghost use Rattle.std.specs.Prelude.{◌≡◌, [], ◌∷◌};
ghost use Rattle.std.specs.List.{list_all};
ghost use Rattle.grammar_file.specs.Grammar.{whole};
ghost use Rattle.llp_tables.specs.Certificate.{after_all, after_in, right_sides, terminal_part};
ghost use Rattle.grammar_certificate.specs.Checks.{agree, agrees_after, is_terminal};

use crate::certificate::{Certificate, Member};
use crate::members::agrees_with;
use grammar_file::{Grammar, Symbol};

// Whether the symbol is this terminal.
fn is_terminal(symbol: Symbol, a: u16) -> bool
    ensures { result ≡ is_terminal symbol a }
{
    match symbol {
        Symbol::Terminal(b) => b == a,
        Symbol::Nonterminal(_) => false,
    }
}

// Whether all members right after the terminal in right side i agree with this one.
fn side_agrees(certificate: &Certificate, i: usize, a: u16, right: &[Symbol], e: &Member) -> bool
    ensures { result ≡ list_all (agree e.now) (after_in certificate.now i 0 a right.now) }
{
    for k in 0..right.len() {
        if is_terminal(right[k], a) && !agrees_with(certificate.row(i, k + 1), e) {
            return false;
        }
    }
    true
}

// The same in all right sides.
fn sides_agree(certificate: &Certificate, grammar: &Grammar, a: u16, e: &Member) -> bool
    ensures { result ≡ list_all (agree e.now) (after_all certificate.now 0 a (right_sides grammar.now)) }
{
    let whole = whole(grammar);
    if !side_agrees(certificate, 0, a, &whole, e) {
        return false;
    }
    let productions = grammar.productions();
    for p in 0..productions.len() {
        if !side_agrees(certificate, p + 1, a, productions[p].right(), e) {
            return false;
        }
    }
    true
}

// Whether all of the row agree with all members right after the terminal.
fn row_agrees(certificate: &Certificate, grammar: &Grammar, a: u16, row: &[Member]) -> bool
    ensures { result ≡ list_all (agrees_after certificate.now grammar.now a) row.now }
{
    row.iter().all(|e| sides_agree(certificate, grammar, a, e))
}

// Whether all members right after the terminal in right side i agree with each other and with those of all right sides.
fn side_passes(
    certificate: &Certificate,
    grammar: &Grammar,
    i: usize,
    a: u16,
    right: &[Symbol],
) -> bool
    ensures { result ≡ list_all (agrees_after certificate.now grammar.now a) (after_in certificate.now i 0 a right.now) }
{
    for k in 0..right.len() {
        if is_terminal(right[k], a)
            && !row_agrees(certificate, grammar, a, certificate.row(i, k + 1))
        {
            return false;
        }
    }
    true
}

/// The part of a terminal.
pub(crate) fn terminal_part(certificate: &Certificate, grammar: &Grammar, a: u16) -> bool
    ensures { result ≡ terminal_part certificate.now grammar.now a }
{
    let whole = whole(grammar);
    if !side_passes(certificate, grammar, 0, a, &whole) {
        return false;
    }
    let productions = grammar.productions();
    for p in 0..productions.len() {
        if !side_passes(certificate, grammar, p + 1, a, productions[p].right()) {
            return false;
        }
    }
    true
}

/// What the whole text is derived from.
pub(crate) fn whole(grammar: &Grammar) -> [Symbol; 3]
    ensures { result ≡ whole grammar.now }
{
    [
        Symbol::Terminal(0),
        Symbol::Nonterminal(0),
        grammar.end_mark(),
    ]
}
