// The records of a batch.

ghost use Rattle.std.specs.Prelude.{◌≡◌, ◌≢◌, ◌⊎◌, ℕ, ◌+◌, ◌-◌, ◌<◌, ◌≤◌, ◌^◌, ◌++◌, ◌∷◌, [], List, length, take, drop, map, IfOk, IfErr, OnErr, MatchOption, MatchResult};
ghost use Rattle.byteorder.specs.Endian.{little_number};
ghost use Rattle.batch_records.specs.declared.fault.BatchFault.{BatchFault as AnyFault};
ghost use Rattle.batch_records.specs.declared.fault.BatchError.TheVariants.{Fault, NoMemory};
ghost use Rattle.batch_records.specs.declared.reading.Record.{Record as Place};
ghost use Rattle.batch_records.specs.Batch.{IsBatch, IsBatchFault, IsBroken, most_batch, most_records};
ghost use Rattle.batch_records.specs.Answering.{IsError, IsRecordAt, source_at};

use crate::fault::{BatchError, BatchFault};
use crate::laws::{fault_or_records, faults_are_one, records_are_one};
use byteorder::{ByteOrder, LittleEndian};
use std::alloc::{AllocError, Global};

/// How many bytes a batch may have.
pub const MOST_BYTES: usize = 67_108_864;

/// How many records a batch may have.
pub const MOST_RECORDS: usize = 65_536;

/// The bytes of a record's length.
const LENGTH: usize = 4;

/// Where the source of a record stands in a batch.
#[derive(Clone, Copy, PartialEq, Eq, Debug)]
pub struct Record {
    /// Its first byte.
    pub start: u32,
    /// The byte behind its last.
    pub end: u32,
}

/// The source of a record.
pub fn source_of(input: &[u8], place: Record) -> &[u8]
    ensures { result.now ≡ source_at input.now place }
{
    let behind = &input[(place.start as usize).min(input.len())..];
    let count = place.end.saturating_sub(place.start) as usize;
    &behind[..count.min(behind.len())]
}

/// The record that begins at a place, if it is whole.
fn record_at(input: &[u8], place: usize) -> Option<Record>
    requires small { length input.now ≤ most_batch }
    requires within { place < length input.now }
    ensures { MatchOption result (IsBroken (drop place input.now)) (λ r. IsRecordAt input.now place r) }
{
    let rest = &input[place..];
    if rest.len() < LENGTH {
        return None;
    }
    let length = LittleEndian::read_u32(rest) as usize;
    if rest.len() - LENGTH < length {
        return None;
    }
    let start = place + LENGTH;
    Some(Record {
        start: start as u32,
        end: (start + length) as u32,
    })
}

/// Keeps the record, unless there are too many.
fn keep(records: &mut Vec<Record>, next: Record) -> Result<(), AllocError>
    requires { length records.old.items ≤ most_records }
    ensures { IfOk result (λ _. records.new.items ≡ take most_records (records.old.items ++ next ∷ [])) }
{
    if records.len() < MOST_RECORDS {
        records.push(next)?;
    }
    Ok(())
}

/// The places of the records of a batch that isn't too large. Its bytes are read to their end also where there are too many records.
fn places(alloc: Global, input: &[u8]) -> Result<Vec<Record>, BatchError>
    requires small { length input.now ≤ most_batch }
    ensures batch { IfOk result (λ records. IsBatch input.now (map (source_at input.now) records.items)) }
    ensures fault { IfErr result (λ error. IsError input.now error) }
{
    let mut records = Vec::new(alloc);
    let mut count = 0;
    let mut place = 0;
    while place < input.len() {
        let Some(record) = record_at(input, place) else {
            return Err(BatchError::Fault(BatchFault::Record(count)));
        };
        keep(&mut records, record)?;
        count += 1;
        place = record.end as usize;
    }
    if MOST_RECORDS < count as usize {
        return Err(BatchError::Fault(BatchFault::Count));
    }
    Ok(records)
}

/// The places of the sources of a batch, one for each record, in order, or the batch's first fault. It takes memory in proportion to the records.
pub fn read_records(alloc: Global, input: &[u8]) -> Result<Vec<Record>, BatchError>
    ensures batch { IfOk result (λ records. IsBatch input.now (map (source_at input.now) records.items)) }
    ensures fault { IfErr result (λ error. IsError input.now error) }
    ensures taken { (sources : List (List ℕ)) → IsBatch input.now sources
        → MatchResult result (λ records. map (source_at input.now) records.items ≡ sources) (λ error. error ≡ NoMemory) }
    ensures refused { (fault : AnyFault) → IsBatchFault input.now fault → MatchResult result (λ _. ⊥) (λ error. (error ≡ NoMemory) ⊎ (error ≡ Fault fault)) }
{
    records_are_one();
    faults_are_one();
    fault_or_records();
    if MOST_BYTES < input.len() {
        return Err(BatchError::Fault(BatchFault::TooLarge));
    }
    places(alloc, input)
}
