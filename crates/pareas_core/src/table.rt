// What the program answers to a grammar file, and to a word.

ghost use Rattle.std.specs.Prelude.{◌≡◌, ◌++◌, codes, decimal, IfOk, option_map};
ghost use Rattle.command_line.specs.declared.command.Command.TheVariants.{Table};
ghost use Rattle.pareas_core.specs.declared.status.Status.TheVariants.{Refused};
ghost use Rattle.pareas_core.specs.Responses.{IsResponse};
ghost use Rattle.pareas_core.specs.Output.{due_of_table, noted};

use crate::listing::written;
use crate::response::{Output, Response};
use crate::status::Status;
use command_line::Word;
use par_passes::Passes;
use std::alloc::{AllocError, Global};
use table_text::{TableAnswer, Text, files_have_one_answer, table_answer};

// The bytes of a word, where one is given.
fn spelling(word: &Option<Word>) -> Option<&[u8]>
    ensures { option_map (λ bytes. bytes.now) result ≡ word.now }
{
    match word {
        Some(word) => Some(word.as_bytes()),
        None => None,
    }
}

// The line of a file without tables.
fn refused(alloc: Global, status: Status, line: Text) -> Result<Response, AllocError>
    ensures { IfOk result (λ response. response ≡ noted status line) }
{
    let mut notes = line.into_bytes();
    notes.push(b'\n')?;
    Ok(Response {
        status,
        out: Output::Bytes(Vec::new(alloc)),
        notes,
    })
}

// The line of a word that is no sentence.
fn syntax(alloc: Global, at: u64) -> Result<Response, AllocError>
    ensures { IfOk result (λ response. response ≡ noted Refused (codes "syntax " ++ decimal at)) }
{
    Ok(Response {
        status: Status::Refused,
        out: Output::Bytes(Vec::new(alloc)),
        notes: format!(in alloc; "syntax {at}\n")?.into_bytes(),
    })
}

// The response that tells the answer.
fn response(alloc: Global, answer: TableAnswer) -> Result<Response, AllocError>
    ensures { IfOk result (λ response. response ≡ due_of_table answer) }
{
    match answer {
        TableAnswer::Tabled(text) => Ok(written(alloc, text.into_bytes())),
        TableAnswer::NoGrammar(line) => refused(alloc, Status::BadGrammar, line),
        TableAnswer::Conflict(line) => refused(alloc, Status::Conflict, line),
        TableAnswer::Syntax { at } => syntax(alloc, at),
    }
}

/// The sizes of the tables of the grammar that the file spells, their entries where these are asked for, and the parse of the word, or the first fault of the
/// file, of its grammar or of the word.
pub(crate) fn table(
    crew: &impl Passes,
    file: &[u8],
    word: &Option<Word>,
    entries: bool,
) -> Result<Response, AllocError>
    ensures { IfOk result (λ response. IsResponse (Table word.now entries) file.now response) }
{
    files_have_one_answer();
    let answer = table_answer(crew, file, spelling(word), entries)?;
    response(crew.alloc(), answer)
}
