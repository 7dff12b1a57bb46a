// The numbers of the stacks that are closed for all triples, a layer for each terminal that comes next.

ghost use Rattle.std.specs.Prelude.{◌≡◌, ◌<◌, ◌+◌, Some, None, IfOk, IfSome, OnOk, MatchOption};
ghost use Rattle.ll1_sets.specs.Width.{width_of};
ghost use Rattle.ll1_sets.specs.GrammarSets.{AreLl1Sets};
ghost use Rattle.llp_wide.specs.Places.{AreSpots};
ghost use Rattle.llp_wide.specs.Triples.{AreLayers, AreTriplesUpTo};
ghost use Rattle.llp_wide.specs.Wide.{IsWideLlp, IsLeastWideConflict};
ghost use Rattle.llp_wide.specs.WideConflicts.{IsWideLlpOn, TellWide};
ghost use Rattle.llp_wide.specs.WideEntries.{triple_place};

use crate::claims::Ground;
use crate::closings::{Closing, Layer};
use crate::conflicts::{WideConflict, conflict_on, lesser};
use crate::members::members_on;
use crate::places::Group;
use grammar_file::Grammar;
use ll1_sets::{Ll1Sets, width_of};
use llp_tables::Members;
use std::alloc::{AllocError, Global};

/// The numbers of the stacks of triples, layer by layer and row by row, and the stacks.
#[derive(Drop)]
pub(crate) struct Triples {
    pub numbers: Vec<Option<u32>>,
    pub stacks: Vec<Closing>,
}

impl Triples {
    /// Adds the row of z in a layer.
    fn add_row(
        &mut self,
        alloc: Global,
        grammar: &Grammar,
        layer: &Layer<'_>,
        z: u16,
    ) -> Result<(), AllocError>
        requires llp { IsWideLlpOn grammar.now layer.now.b }
        requires classes { TellWide grammar.now layer.now.b layer.now.classes.now }
        requires before { z < width_of grammar.now }
        requires ahead { layer.now.b < width_of grammar.now }
        requires triples { AreTriplesUpTo grammar.now layer.now.b layer.now.start (triple_place (width_of grammar.now) z 0 layer.now.b) self.old.numbers.items self.old.stacks.items }
        ensures { OnOk result (AreTriplesUpTo grammar.now layer.now.b layer.now.start (triple_place (width_of grammar.now) (z + 1) 0 layer.now.b) self.new.numbers.items self.new.stacks.items) }
    {
        for a in 0..grammar.terminals().len() as u16 + 2 {
            let number = layer.triple_number(alloc, z, a, &mut self.stacks)?;
            self.numbers.push(number)?;
        }
        Ok(())
    }

    /// Adds the layer of a terminal that comes next.
    fn add_layer(
        &mut self,
        alloc: Global,
        grammar: &Grammar,
        classes: &[Members],
        b: u16,
    ) -> Result<(), AllocError>
        requires llp { IsWideLlpOn grammar.now b }
        requires classes { TellWide grammar.now b classes.now }
        requires ahead { b < width_of grammar.now }
        requires layers { AreLayers grammar.now b self.old.numbers.items self.old.stacks.items }
        ensures { OnOk result (AreLayers grammar.now (b + 1) self.new.numbers.items self.new.stacks.items) }
    {
        let start = self.stacks.len();
        let layer = Layer { classes, b, start };
        for z in 0..width_of(grammar) {
            self.add_row(alloc, grammar, &layer, z)?;
        }
        Ok(())
    }
}

// The triples, where there is no conflict.
fn if_free(conflict: &Option<WideConflict>, triples: Option<Triples>) -> Option<Triples>
    ensures { IfSome result (λ t. (triples ≡ Some t) × (conflict.now ≡ None)) }
{
    match conflict {
        Some(_) => None,
        None => triples,
    }
}

// The triples with the layer of b, where there are any and memory is enough.
fn with_layer(
    alloc: Global,
    grammar: &Grammar,
    classes: &[Members],
    b: u16,
    triples: Option<Triples>,
) -> Option<Triples>
    requires llp { IfSome triples (λ t. IsWideLlpOn grammar.now b) }
    requires classes { TellWide grammar.now b classes.now }
    requires ahead { b < width_of grammar.now }
    requires layers { IfSome triples (λ t. AreLayers grammar.now b t.numbers.items t.stacks.items) }
    ensures { IfSome result (λ t. AreLayers grammar.now (b + 1) t.numbers.items t.stacks.items) }
{
    match triples {
        Some(mut triples) => match triples.add_layer(alloc, grammar, classes, b) {
            Ok(()) => Some(triples),
            Err(AllocError) => None,
        },
        None => None,
    }
}

/// The members of PSLS(z,a,b) for each z and a.
fn classes_on(
    alloc: Global,
    grammar: &Grammar,
    sets: &Ll1Sets,
    places: &[Group],
    b: u16,
) -> Result<Vec<Members>, AllocError>
    requires sets { AreLl1Sets grammar.now sets.now }
    requires places { AreSpots grammar.now places.now }
    requires within { b < width_of grammar.now }
    ensures { IfOk result (λ v. TellWide grammar.now b v.items) }
{
    let ground = Ground {
        grammar,
        nullable: sets.nullable.as_slice(),
        first: sets.table.column(b).first(),
        groups: places,
        b,
    };
    members_on(alloc, &ground)
}

/// The least conflict: the least z, then the least a, then the least b, and the two least members of PSLS(z,a,b). There is none
/// exactly where the grammar is LLP(2,1). Beside it the numbers of the stacks of all triples, and the stacks: where there is no conflict,
/// unless memory runs out for them. The cells of one b are kept at a time.
pub(crate) fn conflict_or_triples(
    alloc: Global,
    grammar: &Grammar,
    sets: &Ll1Sets,
    places: &[Group],
) -> Result<(Option<WideConflict>, Option<Triples>), AllocError>
    requires sets { AreLl1Sets grammar.now sets.now }
    requires places { AreSpots grammar.now places.now }
    ensures conflict { IfOk result (λ r. MatchOption r.0 (IsWideLlp grammar.now) (λ k. IsLeastWideConflict grammar.now k.z k.a k.b k.first k.second)) }
    ensures triples { IfOk result (λ r. IfSome r.1 (λ t. AreLayers grammar.now (width_of grammar.now) t.numbers.items t.stacks.items)) }
{
    let mut triples = Some(Triples {
        numbers: Vec::new(alloc),
        stacks: Vec::new(alloc),
    });
    let mut best = None;
    for b in 0..width_of(grammar) {
        let classes = classes_on(alloc, grammar, sets, places, b)?;
        let next = conflict_on(alloc, grammar, classes.as_slice(), b)?;
        best = lesser(best, next);
        let free = if_free(&best, triples);
        triples = with_layer(alloc, grammar, classes.as_slice(), b, free);
    }
    Ok((best, triples))
}
