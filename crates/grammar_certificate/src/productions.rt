// The part of one production.

ghost use Rattle.std.specs.Prelude.{◌≡◌, ◌∷◌, []};
ghost use Rattle.std.specs.List.{list_all};
ghost use Rattle.llp_tables.specs.Certificate.{all_empty, all_in, at_end, beginnings, end_of, falls_to, first_of, follow_of, marks_left, marks_symbol};
ghost use Rattle.llp_tables.specs.Certificate.{members_at, part_from, production_part, rank_falls, says, within};

use crate::certificate::{Certificate, Member};
use crate::members::{all_behind, all_in, has, is_function, says_on, within};
use grammar_file::Symbol;

/// Whether all of a form may be empty.
pub(crate) fn all_empty(certificate: &Certificate, form: &[Symbol]) -> bool
    ensures { result ≡ all_empty certificate.now form.now }
{
    for i in 0..form.len() {
        if !certificate.may_be_empty(form[i]) {
            return false;
        }
    }
    true
}

// Whether what the symbol may begin with is in the set.
fn first_within(certificate: &Certificate, x: Symbol, set: &[u16]) -> bool
    ensures { result ≡ within (first_of certificate.now x) set.now }
{
    match x {
        Symbol::Terminal(a) => has(set, a),
        Symbol::Nonterminal(a) => within(certificate.first(a), set),
    }
}

// Whether what the form may begin with is in the set.
fn beginnings_within(certificate: &Certificate, form: &[Symbol], set: &[u16]) -> bool
    ensures { result ≡ within (beginnings certificate.now form.now) set.now }
{
    for i in 0..form.len() {
        if !first_within(certificate, form[i], set) {
            return false;
        }
        if !certificate.may_be_empty(form[i]) {
            return true;
        }
    }
    true
}

// Whether the rank falls from the left side to the symbol, if it is a nonterminal.
fn falls_to(certificate: &Certificate, left: u16, x: Symbol) -> bool
    ensures { result ≡ falls_to certificate.now left x }
{
    match x {
        Symbol::Terminal(_) => true,
        Symbol::Nonterminal(a) => certificate.rank(a) < certificate.rank(left),
    }
}

// Whether the rank falls to each nonterminal that can stand first.
fn rank_falls(certificate: &Certificate, left: u16, form: &[Symbol]) -> bool
    ensures { result ≡ rank_falls certificate.now left form.now }
{
    for i in 0..form.len() {
        if !falls_to(certificate, left, form[i]) {
            return false;
        }
        if !certificate.may_be_empty(form[i]) {
            return true;
        }
    }
    true
}

// What the production forces of its left side.
fn marks_left(certificate: &Certificate, left: u16, right: &[Symbol]) -> bool
    ensures { result ≡ marks_left certificate.now left right.now }
{
    if all_empty(certificate, right) && !certificate.is_empty(left) {
        return false;
    }
    beginnings_within(certificate, right, certificate.first(left))
        && rank_falls(certificate, left, right)
}

// Whether FOLLOW of each of these nonterminals is in the set.
fn follows_within(certificate: &Certificate, left: &[u16], set: &[u16]) -> bool
    ensures { result ≡ list_all (λ l. within (follow_of certificate.now l) set.now) left.now }
{
    left.iter().all(|l| within(certificate.follow(*l), set))
}

// What stands behind a symbol forces into its FOLLOW, if it is a nonterminal.
fn marks_symbol(certificate: &Certificate, left: &[u16], x: Symbol, after: &[Symbol]) -> bool
    ensures { result ≡ marks_symbol certificate.now left.now x after.now }
{
    match x {
        Symbol::Terminal(_) => true,
        Symbol::Nonterminal(a) => {
            if all_empty(certificate, after)
                && !follows_within(certificate, left, certificate.follow(a))
            {
                return false;
            }
            beginnings_within(certificate, after, certificate.follow(a))
        }
    }
}

// Whether the row says for each terminal that the symbol begins that it alone is closed.
fn first_says(certificate: &Certificate, row: &[Member], x: Symbol) -> bool
    ensures { result ≡ list_all (λ b. says row.now b (x ∷ [])) (first_of certificate.now x) }
{
    match x {
        Symbol::Terminal(a) => says_on(row, a, x, &[]),
        Symbol::Nonterminal(a) => certificate
            .first(a)
            .iter()
            .all(|b| says_on(row, *b, x, &[])),
    }
}

// Whether the members right after a nonterminal are at its end.
fn at_end(certificate: &Certificate, x: Symbol, next: &[Member]) -> bool
    ensures { result ≡ at_end certificate.now x next.now }
{
    match x {
        Symbol::Terminal(_) => true,
        Symbol::Nonterminal(a) => all_in(next, certificate.end(a)),
    }
}

// The members at the place of a symbol, by those at the place after it.
fn members_at(certificate: &Certificate, row: &[Member], x: Symbol, next: &[Member]) -> bool
    ensures { result ≡ members_at certificate.now row.now x next.now }
{
    if !is_function(row) || !first_says(certificate, row, x) {
        return false;
    }
    if certificate.may_be_empty(x) && !all_behind(x, next, row) {
        return false;
    }
    at_end(certificate, x, next)
}

// Whether the members at the ends of these nonterminals are in the row.
fn ends_within(certificate: &Certificate, left: &[u16], row: &[Member]) -> bool
    ensures { result ≡ list_all (λ l. all_in (end_of certificate.now l) row.now) left.now }
{
    left.iter().all(|l| all_in(certificate.end(*l), row))
}

// The places of a right side.
fn places_pass(certificate: &Certificate, i: usize, left: &[u16], right: &[Symbol]) -> bool
    ensures { result ≡ part_from certificate.now i 0 left.now right.now }
{
    for k in 0..right.len() {
        if !marks_symbol(certificate, left, right[k], &right[k + 1..]) {
            return false;
        }
        if !members_at(
            certificate,
            certificate.row(i, k),
            right[k],
            certificate.row(i, k + 1),
        ) {
            return false;
        }
    }
    let last = certificate.row(i, right.len());
    is_function(last) && ends_within(certificate, left, last)
}

// What it forces of its left side, where it has one.
fn left_passes(certificate: &Certificate, left: &[u16], right: &[Symbol]) -> bool
    ensures { result ≡ list_all (λ l. marks_left certificate.now l right.now) left.now }
{
    left.iter().all(|l| marks_left(certificate, *l, right))
}

/// The part of right side i. The augmented start has no left side, any other production one.
pub(crate) fn production_part(
    certificate: &Certificate,
    i: usize,
    left: &[u16],
    right: &[Symbol],
) -> bool
    ensures { result ≡ production_part certificate.now i left.now right.now }
{
    left_passes(certificate, left, right) && places_pass(certificate, i, left, right)
}
