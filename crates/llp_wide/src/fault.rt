// Why a grammar has no tables where two terminals are looked back at.

ghost use Rattle.std.specs.Prelude.{◌≡◌, ◌++◌, codes, IfOk, OnOk};
ghost use Rattle.grammar_file.specs.declared.symbols.Symbol.TheVariants.{Terminal as AnyTerminal};
ghost use Rattle.llp_tables.specs.FaultLines.{stack_text, text_of};
ghost use Rattle.llp_wide.specs.WideFaults.{line_of_wide_fault};

use grammar_file::{Grammar, Symbol};
use ll1_sets::Ll1Fault;
use llp_tables::{Stack, TableFault, push_name, push_stack};
use std::alloc::{AllocError, Global};

/// The least conflict of a grammar where two terminals are looked back at, or that memory ran out. `z`, `a` and `b` are
/// terminals, `p1` and `p2` productions.
#[derive(Drop)]
pub enum WideFault {
    /// The nonterminal derives, in one or more steps, a form that begins with itself.
    LeftRecursive {
        nonterminal: u16,
    },
    /// Two productions of the nonterminal predict b.
    Ll1 {
        nonterminal: u16,
        b: u16,
        p1: u16,
        p2: u16,
    },
    /// Where z and then a are matched last, two different stacks may be closed before b.
    Wide {
        z: u16,
        a: u16,
        b: u16,
        first: Stack,
        second: Stack,
    },
    /// Memory ran out.
    NoMemory,
}

impl From<AllocError> for WideFault {
    ghost use Rattle.std.specs.Prelude.{◌≡◌};
    ghost use Rattle.llp_wide.specs.declared.fault.WideFault.TheVariants.{NoMemory};

    ghost from_gives = { λ _ e. e ≡ NoMemory };

    fn from(_: AllocError) -> WideFault {
        WideFault::NoMemory
    }
}

impl From<Ll1Fault> for WideFault {
    ghost use Rattle.std.specs.Prelude.{◌≡◌};
    ghost use Rattle.llp_wide.specs.WideFaults.{wide_fault_by};

    ghost from_gives = { λ fault e. e ≡ wide_fault_by fault };

    fn from(fault: Ll1Fault) -> WideFault {
        match fault {
            Ll1Fault::LeftRecursive(nonterminal) => WideFault::LeftRecursive { nonterminal },
            Ll1Fault::Conflict(conflict) => WideFault::Ll1 {
                nonterminal: conflict.nonterminal,
                b: conflict.b,
                p1: conflict.p1,
                p2: conflict.p2,
            },
            Ll1Fault::NoMemory => WideFault::NoMemory,
        }
    }
}

// `conflict`, and the names of three terminals.
fn conflict_line(
    alloc: Global,
    grammar: &Grammar,
    z: u16,
    a: u16,
    b: u16,
) -> Result<Vec<u8>, AllocError>
    ensures { IfOk result (λ text. text.items
        ≡ codes "conflict " ++ text_of grammar.now (AnyTerminal z) ++ codes " " ++ text_of grammar.now (AnyTerminal a) ++ codes " " ++ text_of grammar.now (AnyTerminal b)) }
{
    let mut text = b"conflict ".to_vec(alloc)?;
    push_name(&mut text, grammar, Symbol::Terminal(z))?;
    text.extend_from_slice(b" ")?;
    push_name(&mut text, grammar, Symbol::Terminal(a))?;
    text.extend_from_slice(b" ")?;
    push_name(&mut text, grammar, Symbol::Terminal(b))?;
    Ok(text)
}

// Writes two stacks behind the text.
fn push_stacks(
    text: &mut Vec<u8>,
    grammar: &Grammar,
    first: &Stack,
    second: &Stack,
) -> Result<(), AllocError>
    ensures { OnOk result (text.new.items ≡ text.old.items ++ codes ": " ++ stack_text grammar.now first.now ++ codes " | " ++ stack_text grammar.now second.now) }
{
    text.extend_from_slice(b": ")?;
    push_stack(text, grammar, first)?;
    text.extend_from_slice(b" | ")?;
    push_stack(text, grammar, second)?;
    Ok(())
}

impl WideFault {
    /// The line that is printed of the fault, without its line feed. Symbols have their names of the grammar.
    pub fn line(&self, alloc: Global, grammar: &Grammar) -> Result<Vec<u8>, AllocError>
        ensures { IfOk result (λ text. text.items ≡ line_of_wide_fault grammar.now self.now) }
    {
        match self {
            WideFault::LeftRecursive { nonterminal } => {
                let nonterminal = *nonterminal;
                let fault = TableFault::LeftRecursive { nonterminal };
                fault.line(alloc, grammar)
            }
            WideFault::Ll1 {
                nonterminal,
                b,
                p1,
                p2,
            } => {
                let fault = TableFault::Ll1 {
                    nonterminal: *nonterminal,
                    b: *b,
                    p1: *p1,
                    p2: *p2,
                };
                fault.line(alloc, grammar)
            }
            WideFault::Wide {
                z,
                a,
                b,
                first,
                second,
            } => {
                let mut text = conflict_line(alloc, grammar, *z, *a, *b)?;
                push_stacks(&mut text, grammar, first, second)?;
                Ok(text)
            }
            WideFault::NoMemory => b"out of memory".to_vec(alloc),
        }
    }
}
