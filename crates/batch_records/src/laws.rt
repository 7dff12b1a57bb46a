//! Laws about the definitions, the contracts of functions that do nothing.

ghost use Rattle.std.specs.Prelude.{◌≡◌, ℕ, List};
ghost use Rattle.batch_records.specs.declared.fault.BatchFault.{BatchFault};
ghost use Rattle.batch_records.specs.Batch.{IsBatch, IsBatchFault, Records};

/// Bytes are the records of one list of sources at most.
pub fn records_are_one()
    ensures { (bytes : List ℕ) (s t : List (List ℕ)) → Records bytes s → Records bytes t → s ≡ t }
{}

/// A batch has one fault at most.
pub fn faults_are_one()
    ensures { (bytes : List ℕ) (f g : BatchFault) → IsBatchFault bytes f → IsBatchFault bytes g → f ≡ g }
{}

/// A batch with a fault isn't taken.
pub fn fault_or_records()
    ensures { (bytes : List ℕ) (f : BatchFault) (sources : List (List ℕ)) → IsBatchFault bytes f → IsBatch bytes sources → ⊥ }
{}
