// The check of a certificate.

ghost use Rattle.std.specs.Prelude.{◌≡◌, true};
ghost use Rattle.grammar_file.specs.Grammar.{IsWellFormed};
ghost use Rattle.ll1_sets.specs.Predict.{IsLl1};
ghost use Rattle.llp_tables.specs.Certificate.{accepted, nonterminals_part, productions_from, start_part, terminals_part};
ghost use Rattle.llp_tables.specs.Lookback.{IsLlp};

use crate::certificate::Certificate;
use crate::predictions::nonterminal_part;
use crate::productions::production_part;
use crate::terminals::{terminal_part, whole};
use grammar_file::{Grammar, Production};
use ll1_sets::width_of;
use llp_tables::accepts_is_ll1_and_llp;

// The part of the augmented start, which has no left side.
fn start_passes(certificate: &Certificate, grammar: &Grammar) -> bool
    ensures { result ≡ start_part certificate.now grammar.now }
{
    let whole = whole(grammar);
    production_part(certificate, 0, &[], &whole)
}

// The parts of all productions.
fn productions_pass(certificate: &Certificate, productions: &[Production]) -> bool
    ensures { result ≡ productions_from certificate.now 1 productions.now }
{
    for p in 0..productions.len() {
        let production = &productions[p];
        if !production_part(certificate, p + 1, &[production.left()], production.right()) {
            return false;
        }
    }
    true
}

// The parts of all terminals, the two marks among them.
fn terminals_pass(certificate: &Certificate, grammar: &Grammar) -> bool
    ensures { result ≡ terminals_part certificate.now grammar.now }
{
    (0..width_of(grammar)).all(|a| terminal_part(certificate, grammar, a))
}

// The parts of all nonterminals.
fn nonterminals_pass(certificate: &Certificate, grammar: &Grammar) -> bool
    ensures { result ≡ nonterminals_part certificate.now grammar.now }
{
    let productions = grammar.productions();
    (0..grammar.nonterminal_count()).all(|a| nonterminal_part(certificate, a, productions))
}

// All parts, of a grammar that is well formed, as each one is.
fn parts_pass(certificate: &Certificate, grammar: &Grammar) -> bool
    ensures parts { result ≡ accepted certificate.now grammar.now }
    ensures well_formed { IsWellFormed grammar.now }
{
    let productions = grammar.productions();
    start_passes(certificate, grammar)
        && productions_pass(certificate, productions)
        && terminals_pass(certificate, grammar)
        && nonterminals_pass(certificate, grammar)
}

/// Whether each part of the certificate holds for the grammar: that of the augmented start, those of the productions, of the terminals
/// and of the nonterminals. Then the grammar is LL(1) and LLP(1,1). It takes no memory.
pub fn accepts(grammar: &Grammar, certificate: &Certificate) -> bool
    ensures parts { result ≡ accepted certificate.now grammar.now }
    ensures ll1 { result ≡ true → IsLl1 grammar.now }
    ensures llp { result ≡ true → IsLlp grammar.now }
{
    accepts_is_ll1_and_llp();
    parts_pass(certificate, grammar)
}
