// How the work of a command is shared out.

ghost use Rattle.std.specs.Prelude.{◌≡◌, ◌≢◌, ◌⊎◌};

use chunk_seats::Plan;
use command_line::Command;

/// The plan of a command line that names neither workers nor a chunk.
const DEFAULT_WORKERS: u32 = 4;

const DEFAULT_CHUNK: u32 = 1024;

/// By default a text of fewer bytes is compiled by one worker: to start threads for each pass would take longer than they save.
const SMALL_TEXT: usize = 131_072;

/// About how many bytes each function of a drill's text has.
const DRILL_FUNCTION: usize = 122;

// How many bytes the text has that is compiled; for a drill, about how many. A batch is shared out by its sources, which are compiled by one worker
// each, so it counts as large.
fn text_size(command: &Command, bytes: usize) -> usize {
    match command {
        Command::Batch => SMALL_TEXT,
        Command::Drill { functions, .. } => (*functions as usize).saturating_mul(DRILL_FUNCTION),
        _ => bytes,
    }
}

/// The plan for a command that has read `bytes` bytes: the one that the words name, but one worker for a small text by default. Words that name the
/// plan by default are as words that name none.
pub(crate) fn plan_for(plan: Plan, command: &Command, bytes: usize) -> Plan
    ensures chunk { result.chunk ≡ plan.chunk }
    ensures workers { (result.workers ≡ plan.workers) ⊎ (result.workers ≡ 1) }
    ensures named { (plan.workers ≢ 4) ⊎ (plan.chunk ≢ 1024) → result ≡ plan }
{
    let is_default = plan.workers == DEFAULT_WORKERS && plan.chunk == DEFAULT_CHUNK;
    if is_default && text_size(command, bytes) < SMALL_TEXT {
        return Plan {
            workers: 1,
            chunk: plan.chunk,
        };
    }
    plan
}
