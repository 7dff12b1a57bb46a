// The answer to one source of a batch.

ghost use Rattle.std.specs.Prelude.{◌≡◌, ◌++◌, ◌<◌, ◌^◌, length, IfOk};
ghost use Rattle.batch_records.specs.Answering.{answer_bytes, kind_byte};

use byteorder::{ByteOrder, LittleEndian};
use std::alloc::{AllocError, Global};
use std::marker::Model;

/// What an answer is.
#[derive(Clone, Copy, PartialEq, Eq, Debug)]
pub enum AnswerKind {
    /// The image of the source's program.
    Image,
    /// The line of the source's diagnostic.
    Diagnostic,
    /// The line of the limit that the source passes.
    Limit,
}

impl AnswerKind {
    /// The byte that tells it: the exit status of a compilation that ends so.
    pub fn byte(self) -> u8
        ensures { result ≡ kind_byte self }
    {
        match self {
            AnswerKind::Image => 0,
            AnswerKind::Diagnostic => 1,
            AnswerKind::Limit => 5,
        }
    }
}

/// How many bytes stand before an answer's image or line: one for its kind, and four for the length.
const HEAD: usize = 5;

/// The answer to one source, an image or a line of fewer than 4 GiB, as the bytes that are written: its kind, its length, and the image or the line.
#[derive(Drop)]
pub struct Answer {
    kind: AnswerKind,
    encoded: Vec<u8>,
}

impl Model for Answer {
    ghost use Rattle.std.specs.Prelude.{◌≡◌, ◌<◌, ◌^◌, length, drop};
    ghost use Rattle.batch_records.specs.Answering.{Answered, answer_bytes};

    ghost Value = { Answered };

    ghost view = { λ a. record { kind = a.kind; bytes = drop 5 a.encoded.items } };

    ghost invariant = { λ a. (a.encoded.items ≡ answer_bytes (record { kind = a.kind; bytes = drop 5 a.encoded.items })) × (length (drop 5 a.encoded.items) < 2 ^ 32) };
}

impl Answer {
    /// The answer with these bytes.
    pub fn new(alloc: Global, kind: AnswerKind, bytes: &[u8]) -> Result<Answer, AllocError>
        requires short { length bytes.now < 2 ^ 32 }
        ensures kind { IfOk result (λ answer. answer.kind ≡ kind) }
        ensures bytes { IfOk result (λ answer. answer.bytes ≡ bytes.now) }
    {
        let mut length = [0; 4];
        LittleEndian::write_u32(&mut length, bytes.len() as u32);
        let mut encoded = Vec::with_capacity(alloc, HEAD + bytes.len())?;
        encoded.push(kind.byte())?;
        encoded.extend_from_slice(&length)?;
        encoded.extend_from_slice(bytes)?;
        Ok(Answer { kind, encoded })
    }

    /// What the answer is.
    pub fn kind(&self) -> AnswerKind
        ensures { result ≡ self.now.kind }
    {
        self.kind
    }

    /// The image or the line.
    pub fn bytes(&self) -> &[u8]
        ensures { result.now ≡ self.now.bytes }
    {
        &self.encoded[HEAD..]
    }

    /// The answer as it is written: a byte for its kind, its length, and its bytes.
    pub fn encoded(&self) -> &[u8]
        ensures { result.now ≡ answer_bytes self.now }
    {
        &self.encoded
    }
}
