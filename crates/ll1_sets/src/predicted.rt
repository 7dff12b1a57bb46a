// The productions that one terminal predicts, found in one pass over all productions, and the least conflict on it.

ghost use Rattle.std.specs.Prelude.{◌≡◌, ◌<◌, ◌≤◌, ◌+◌, ℕ, length, true, false, Some, None, IfOk, MatchOption, slice_index_or};
ghost use Rattle.grammar_file.specs.Grammar.{Grammar as AnyGrammar};
ghost use Rattle.ll1_sets.specs.Predict.{IsPredicted, ArePredictions};
ghost use Rattle.ll1_sets.specs.Conflicts.{AreSets, ArePredictedTo, LeastOn};
ghost use Rattle.ll1_sets.specs.declared.conflicts.Conflict.{Conflict as AnyConflict};

use crate::conflicts::Conflict;
use crate::sets::Sets;
use grammar_file::Grammar;
use std::alloc::{AllocError, Global};

/// The production of a nonterminal that is predicted, where there is one.
pub fn prediction_of(predictions: &[Option<u16>], nonterminal: u16) -> Option<u16>
    ensures { result ≡ slice_index_or predictions.now nonterminal None }
{
    match predictions.get(nonterminal as usize) {
        Some(prediction) => *prediction,
        None => None,
    }
}

/// What the productions so far tell of one terminal.
#[derive(Drop)]
pub(crate) struct Predicted {
    /// The least production of each nonterminal that it predicts, where there is one.
    pub predictions: Vec<Option<u16>>,
    /// The least conflict on it.
    pub conflict: Option<Conflict>,
}

impl Predicted {
    /// Nothing is predicted.
    fn none(alloc: Global, grammar: &Grammar) -> Result<Predicted, AllocError>
        ensures { IfOk result (λ found. (b : ℕ) → ArePredictedTo grammar.now 0 b found.predictions.items found.conflict) }
    {
        let predictions = vec![in alloc; None; grammar.nonterminals().len()]?;
        let conflict = None;
        Ok(Predicted {
            predictions,
            conflict,
        })
    }

    /// Whether the conflict is one of this nonterminal or of a lesser one.
    fn is_settled_at(&self, a: u16) -> bool
        ensures yes { result ≡ true → (k : AnyConflict) × (self.now.conflict ≡ Some k) × (k.nonterminal ≤ a) }
        ensures other { result ≡ false → (k : AnyConflict) → self.now.conflict ≡ Some k → a < k.nonterminal }
    {
        match &self.conflict {
            Some(conflict) => conflict.nonterminal <= a,
            None => false,
        }
    }

    /// Adds the production p of the nonterminal a, which b predicts. It is the prediction, or the second one of a conflict.
    fn add(&mut self, a: u16, b: u16, p: u16)
        requires { a < length self.old.predictions.items }
        ensures { (g : AnyGrammar) (n : ℕ) → p ≡ n + 1 → IsPredicted g a p b
            → ArePredictedTo g n b self.old.predictions.items self.old.conflict
            → ArePredictedTo g p b self.new.predictions.items self.new.conflict }
    {
        match self.predictions[a as usize] {
            None => self.predictions[a as usize] = Some(p),
            Some(p1) => {
                if !self.is_settled_at(a) {
                    let nonterminal = a;
                    let p2 = p;
                    self.conflict = Some(Conflict {
                        nonterminal,
                        b,
                        p1,
                        p2,
                    });
                }
            }
        }
    }
}

impl Sets<'_> {
    /// The nonterminal of the production p, if b predicts that.
    fn predicted_by(&self, p: u16) -> Option<u16>
        requires sets { AreSets self.now.grammar.now self.now.b self.now.nullable.now self.now.first.now self.now.follow.now }
        requires positive { 0 < p }
        requires within { p ≤ length self.now.grammar.now.productions }
        ensures { MatchOption result ((a : ℕ) → ¬ IsPredicted self.now.grammar.now a p self.now.b)
            (λ a. (a < length self.now.grammar.now.nonterminals) × IsPredicted self.now.grammar.now a p self.now.b) }
    {
        let rule = &self.grammar.productions()[p as usize - 1];
        let left = rule.left();
        if self.comes_behind(left, rule.right()) {
            Some(left)
        } else {
            None
        }
    }

    /// Adds the production p, if b predicts it.
    fn add_production(&self, p: u16, found: &mut Predicted)
        requires sets { AreSets self.now.grammar.now self.now.b self.now.nullable.now self.now.first.now self.now.follow.now }
        requires positive { 0 < p }
        requires within { p ≤ length self.now.grammar.now.productions }
        requires len { length found.old.predictions.items ≡ length self.now.grammar.now.nonterminals }
        ensures { (n : ℕ) → p ≡ n + 1
            → ArePredictedTo self.now.grammar.now n self.now.b found.old.predictions.items found.old.conflict
            → ArePredictedTo self.now.grammar.now p self.now.b found.new.predictions.items found.new.conflict }
    {
        if let Some(a) = self.predicted_by(p) {
            found.add(a, self.b, p);
        }
    }

    /// The productions that b predicts, and the least conflict on it.
    pub(crate) fn predicted(&self, alloc: Global) -> Result<Predicted, AllocError>
        requires { AreSets self.now.grammar.now self.now.b self.now.nullable.now self.now.first.now self.now.follow.now }
        ensures predictions { IfOk result (λ found. ArePredictions self.now.grammar.now self.now.b found.predictions.items) }
        ensures conflict { IfOk result (λ found. LeastOn self.now.grammar.now self.now.b found.conflict) }
    {
        let mut found = Predicted::none(alloc, self.grammar)?;
        for i in 0..self.grammar.production_count() {
            self.add_production(i + 1, &mut found);
        }
        Ok(found)
    }
}
