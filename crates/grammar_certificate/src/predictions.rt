// The part of one nonterminal: no two of its predictions meet.

ghost use Rattle.std.specs.Prelude.{◌≡◌, not};
ghost use Rattle.std.specs.List.{list_all};
ghost use Rattle.llp_tables.specs.Certificate.{apart, apart_from_all, beginnings, first_of, has, nonterminal_part, predicts};
ghost use Rattle.grammar_certificate.specs.Checks.{is_not_predicted};

use crate::certificate::Certificate;
use crate::members::{has, is_function};
use crate::productions::all_empty;
use grammar_file::{Production, Symbol};

// Whether the symbol may begin with the terminal.
fn starts(certificate: &Certificate, x: Symbol, b: u16) -> bool
    ensures { result ≡ has (first_of certificate.now x) b }
{
    match x {
        Symbol::Terminal(a) => a == b,
        Symbol::Nonterminal(a) => has(certificate.first(a), b),
    }
}

// Whether the form may begin with the terminal.
fn begins(certificate: &Certificate, form: &[Symbol], b: u16) -> bool
    ensures { result ≡ has (beginnings certificate.now form.now) b }
{
    for i in 0..form.len() {
        if starts(certificate, form[i], b) {
            return true;
        }
        if !certificate.may_be_empty(form[i]) {
            return false;
        }
    }
    false
}

// Whether the terminal predicts the production.
fn predicts(certificate: &Certificate, r: &Production, b: u16) -> bool
    ensures { result ≡ has (predicts certificate.now r.now) b }
{
    if begins(certificate, r.right(), b) {
        return true;
    }
    all_empty(certificate, r.right()) && has(certificate.follow(r.left()), b)
}

// Whether none of the terminals predicts the production.
fn predict_none(certificate: &Certificate, q: &Production, xs: &[u16]) -> bool
    ensures { result ≡ list_all (is_not_predicted certificate.now q.now) xs.now }
{
    xs.iter().all(|b| !predicts(certificate, q, *b))
}

// The same of the terminals that the symbol may begin with.
fn first_predicts_none(certificate: &Certificate, q: &Production, x: Symbol) -> bool
    ensures { result ≡ list_all (is_not_predicted certificate.now q.now) (first_of certificate.now x) }
{
    match x {
        Symbol::Terminal(a) => !predicts(certificate, q, a),
        Symbol::Nonterminal(a) => predict_none(certificate, q, certificate.first(a)),
    }
}

// The same of the terminals that the form may begin with.
fn beginnings_predict_none(certificate: &Certificate, q: &Production, form: &[Symbol]) -> bool
    ensures { result ≡ list_all (is_not_predicted certificate.now q.now) (beginnings certificate.now form.now) }
{
    for i in 0..form.len() {
        if !first_predicts_none(certificate, q, form[i]) {
            return false;
        }
        if !certificate.may_be_empty(form[i]) {
            return true;
        }
    }
    true
}

// Whether nothing predicts both productions.
fn apart(certificate: &Certificate, r: &Production, q: &Production) -> bool
    ensures { result ≡ apart certificate.now (predicts certificate.now r.now) (predicts certificate.now q.now) }
{
    if !beginnings_predict_none(certificate, q, r.right()) {
        return false;
    }
    !all_empty(certificate, r.right()) || predict_none(certificate, q, certificate.follow(r.left()))
}

// Whether nothing predicts the production and another one of the nonterminal.
fn apart_from_all(certificate: &Certificate, r: &Production, a: u16, others: &[Production]) -> bool
    ensures { result ≡ apart_from_all certificate.now (predicts certificate.now r.now) a others.now }
{
    for j in 0..others.len() {
        if others[j].left() == a && !apart(certificate, r, &others[j]) {
            return false;
        }
    }
    true
}

/// The part of a nonterminal.
pub(crate) fn nonterminal_part(
    certificate: &Certificate,
    a: u16,
    productions: &[Production],
) -> bool
    ensures { result ≡ nonterminal_part certificate.now a productions.now }
{
    for j in 0..productions.len() {
        let production = &productions[j];
        if production.left() == a
            && !apart_from_all(certificate, production, a, &productions[j + 1..])
        {
            return false;
        }
    }
    is_function(certificate.end(a))
}
