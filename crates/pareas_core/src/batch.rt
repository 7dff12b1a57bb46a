//! Many sources at once: the records of a batch are dealt out to workers, each of whom compiles one source at a time.
ghost use Rattle.std.specs.Prelude.{◌≡◌, ◌<◌, ◌≤◌, ℕ, List, All, IfOk, false, length, map};
ghost use Rattle.grammar_file.specs.Spelling.{IsReduced};
ghost use Rattle.llp_tables.specs.EntryTable.{AreTablesOf};
ghost use Rattle.source_meaning.specs.Grammar.{grammar};
ghost use Rattle.front_end.specs.Front.{IsRefusedBy};
ghost use Rattle.chunk_seats.specs.Claims.{fresh};
ghost use Rattle.chunk_seats.specs.Held.{held};
ghost use Rattle.chunk_seats.specs.Tallies.{times, OnceBelow};
ghost use Rattle.batch_records.specs.Batch.{IsBatch, Records, fault_text};
ghost use Rattle.batch_records.specs.Answering.{all_bytes, source_at};
ghost use Rattle.command_line.specs.declared.command.Command.TheVariants.{Batch};
ghost use Rattle.pareas_core.specs.declared.status.Status.TheVariants.{BadBatch};
ghost use Rattle.pareas_core.specs.Batch.{IsAnswerTo, IsFound};
ghost use Rattle.pareas_core.specs.Output.{AreAnswers, done, noted};
ghost use Rattle.pareas_core.specs.Responses.{IsResponse};

use crate::compiler::compile_by;
use crate::position::{error_line, limit_line};
use crate::response::{Output, Response};
use crate::status::Status;
use batch_records::{
    Answer, AnswerKind, BatchError, BatchFault, Record, fault_or_records, faults_are_one,
    read_records, records_are_one, source_of,
};
use chunk_seats::{ClaimBoard, Gate, OpenGate, Plan, Seat};
use claim_teams::make_each;
use front_end::{Refusal, language_tables};
use llp_tables::Tables;
use par_passes::{Passes, Workers, in_order};
use simulation::accepted_code_fits;
use std::alloc::{AllocError, Global};
use std::marker::{Model, Sync};
use std::thread::Threads;
use verdict::one_verdict;

/// The answers to the sources of a batch, each beside the number of its record, in no order.
#[derive(Drop)]
pub struct Answers {
    found: Vec<(u64, Answer)>,
}

impl Model for Answers {
    ghost use Rattle.std.specs.Prelude.{ℕ, List};
    ghost use Rattle.batch_records.specs.Answering.{Answered};

    ghost Value = { List (ℕ × Answered) };

    ghost view = { λ a. a.found.items };
}

impl Answers {
    /// The numbers of records, each with its answer, in no order.
    pub fn as_slice(&self) -> &[(u64, Answer)]
        ensures { result.now ≡ self.now }
    {
        &self.found
    }
}

// The line of a source that has no image.
fn told(alloc: Global, source: &[u8], refusal: Refusal) -> Result<Answer, AllocError>
    requires { IsRefusedBy false source.now refusal }
    ensures { IfOk result (λ answer. IsAnswerTo source.now answer) }
{
    match refusal {
        Refusal::Diagnostic { code, at } => {
            let line = error_line(alloc, source, code, at)?;
            Answer::new(alloc, AnswerKind::Diagnostic, &line)
        }
        Refusal::Limit { code, at, .. } => {
            let line = limit_line(alloc, source, code, at)?;
            Answer::new(alloc, AnswerKind::Limit, &line)
        }
        Refusal::NoMemory => Err(AllocError),
    }
}

// The image of the source, or why it has none.
fn answer_to(crew: &impl Passes, tables: &Tables, source: &[u8]) -> Result<Answer, AllocError>
    requires tables { AreTablesOf grammar tables.now }
    requires reduced { IsReduced grammar }
    ensures { IfOk result (λ answer. IsAnswerTo source.now answer) }
{
    accepted_code_fits();
    match compile_by(crew, tables, source, false) {
        Ok(file) => Answer::new(crew.alloc(), AnswerKind::Image, &file),
        Err(refusal) => told(crew.alloc(), source, refusal),
    }
}

// The answer to the source of one record, which is compiled by one worker.
fn answer_record<R: Threads + Sync, G: Gate>(
    crew: &Workers<'_, R, G>,
    tables: &Tables,
    input: &[u8],
    records: &[Record],
    number: u64,
) -> Result<Answer, AllocError>
    requires tables { AreTablesOf grammar tables.now }
    requires reduced { IsReduced grammar }
    requires number { number < length records.now }
    ensures { IfOk result (λ answer. IsFound (map (source_at input.now) records.now) (number, answer)) }
{
    let alone = Workers {
        runtime: crew.runtime,
        alloc: crew.alloc,
        plan: Plan {
            workers: 1,
            chunk: crew.plan.chunk,
        },
        gate: &OpenGate,
    };
    answer_to(&alone, tables, source_of(input, records[number as usize]))
}

/// Deals the records of a batch out to the crew's workers: each draws numbers from the board, and compiles the source of each alone, as one worker
/// with the plan's chunk. The board and its first seat are lent, and the seat stands for all workers again in the end. The only refusal is that
/// memory is out; then the records that are left are drawn all the same.
pub fn deal<R: Threads + Sync, G: Gate>(
    crew: &Workers<'_, R, G>,
    input: &[u8],
    board: &ClaimBoard,
    seat: &mut Seat,
) -> Result<Answers, AllocError>
    requires batch { (sources : List (List ℕ)) × IsBatch input.now sources × (board.now.chunks ≡ length sources) }
    requires seats { board.now.seats ≡ crew.now.plan.workers }
    requires first { seat.old ≡ held board.now.board (fresh board.now.seats) }
    // The number of each record is claimed once, and has one answer beside it, which is what is due for its source alone.
    ensures claimed { IfOk result (λ _. OnceBelow board.now.chunks (λ n. times n seat.new.view.claimed)) }
    ensures numbers { IfOk result (λ answers. seat.new.view.claimed ≡ map (λ p. p.0) answers) }
    ensures answers { IfOk result (λ answers. (sources : List (List ℕ)) → Records input.now sources → All (IsFound sources) answers) }
    // Also where memory ran out, the seat is the board's whole one, and what it has done it has claimed, each number once.
    ensures seat { (seat.new.board ≡ board.now.board) × (seat.new.view.weight ≡ board.now.seats) }
    ensures within { (n : ℕ) → (times n seat.new.view.done ≤ times n seat.new.view.claimed) × (times n seat.new.view.claimed ≤ 1) }
{
    records_are_one();
    let Ok(records) = read_records(crew.alloc, input) else {
        return Err(AllocError);
    };
    let tables = &language_tables(crew.alloc)?;
    let places = records.as_slice();
    let make = |number: u64| -> Result<Answer, AllocError>
        requires { AreTablesOf grammar tables.now × IsReduced grammar × (number < length places.now) }
        ensures { IfOk result (λ answer. IsFound (map (source_at input.entry.now) places.entry.now) (number, answer)) }
    { answer_record(crew, tables, input, places, number) };
    let found = make_each(crew, board, seat, crew.plan.workers, &make)?;
    Ok(Answers { found })
}

// The crew, with no more workers than there are records.
fn crew_for<'a, R, G>(crew: &Workers<'a, R, G>, count: usize) -> Workers<'a, R, G> {
    Workers {
        runtime: crew.runtime,
        alloc: crew.alloc,
        plan: Plan {
            workers: (crew.plan.workers as usize).min(count.max(1)) as u32,
            chunk: crew.plan.chunk,
        },
        gate: crew.gate,
    }
}

// The answers to all sources of a batch with this many records, in order.
fn answer_all<R: Threads + Sync, G: Gate>(
    crew: &Workers<'_, R, G>,
    input: &[u8],
    count: usize,
) -> Result<Vec<Answer>, AllocError>
    requires { (sources : List (List ℕ)) × IsBatch input.now sources × (count ≡ length sources) }
    ensures { IfOk result (λ answers. (sources : List (List ℕ)) × IsBatch input.now sources × AreAnswers sources answers.items) }
{
    let crew = crew_for(crew, count);
    let (board, mut seat) = ClaimBoard::new(crew.alloc, count as u64, crew.plan.workers)?;
    let Answers { found } = deal(&crew, input, &board, &mut seat)?;
    in_order(crew.alloc, count, found)
}

// Answers that are written whole.
fn answered(alloc: Global, answers: Vec<Answer>) -> Response
    ensures { result ≡ done (all_bytes answers.items) }
{
    Response {
        status: Status::Done,
        out: Output::Answers(answers),
        notes: Vec::new(alloc),
    }
}

// The line of bytes that are no batch.
fn bad_batch(alloc: Global, fault: BatchFault) -> Result<Response, AllocError>
    ensures { IfOk result (λ response. response ≡ noted BadBatch (fault_text fault)) }
{
    Ok(Response {
        status: Status::BadBatch,
        out: Output::Bytes(Vec::new(alloc)),
        notes: format!(in alloc; "{fault}\n")?.into_bytes(),
    })
}

/// An answer to each source of a batch, in order, or the batch's first fault.
pub(crate) fn batch<R: Threads + Sync, G: Gate>(
    crew: &Workers<'_, R, G>,
    input: &[u8],
) -> Result<Response, AllocError>
    ensures { IfOk result (λ response. IsResponse Batch input.now response) }
{
    one_verdict();
    records_are_one();
    faults_are_one();
    fault_or_records();
    match read_records(crew.alloc, input) {
        Ok(records) => Ok(answered(crew.alloc, answer_all(crew, input, records.len())?)),
        Err(BatchError::Fault(fault)) => bad_batch(crew.alloc, fault),
        Err(BatchError::NoMemory) => Err(AllocError),
    }
}
