// Writes all bytes of a result.

ghost use Rattle.std.specs.Prelude.{◌≡◌, OnErr, OnOk};
ghost use Rattle.std.specs.Io.KnownBytes.{Appends};
ghost use Rattle.batch_records.specs.Answering.{all_bytes};
ghost use Rattle.pareas_core.specs.Causes.{Rose};
ghost use Rattle.pareas_core.specs.Reading.{WritesPrefix};

use crate::buffer::Buffer;
use crate::ends::{ByteOut, Failed};
use batch_records::Answer;

/// Writes the bytes, piece by piece: each write is handed all that is left.
pub(crate) fn write_all<O: ByteOut>(out: &mut O, bytes: &[u8]) -> Result<(), Failed>
    ensures written { OnOk result (Appends (O.written out.old) (O.written out.new) bytes.now) }
    ensures worked { OnOk result (O.faults out.new ≡ O.faults out.old) }
    ensures prefix { OnErr result (WritesPrefix (O.written out.old) (O.written out.new) bytes.now) }
    ensures failed { OnErr result (Rose (O.faults out.old) (O.faults out.new)) }
{
    let mut rest = bytes;
    while !rest.is_empty() {
        let count = out.write(rest)?;
        rest = &rest[count..];
    }
    Ok(())
}

/// Writes the answers in order, many small ones by one write.
pub(crate) fn write_answers<O: ByteOut>(out: &mut O, answers: &[Answer]) -> Result<(), Failed>
    ensures written { OnOk result (Appends (O.written out.old) (O.written out.new) (all_bytes answers.now)) }
    ensures worked { OnOk result (O.faults out.new ≡ O.faults out.old) }
    ensures prefix { OnErr result (WritesPrefix (O.written out.old) (O.written out.new) (all_bytes answers.now)) }
    ensures failed { OnErr result (Rose (O.faults out.old) (O.faults out.new)) }
{
    let mut buffer = Buffer::new();
    for answer in answers {
        buffer.put(out, answer.encoded())?;
    }
    buffer.flush(out)
}
