// Reading into a buffer, as the programs do that read a file or standard input whole: fixed memory, no heap.
#![tactic(auto)]

ghost use Rattle.std.specs.Prelude.{◌≡◌, ◌<◌, length, take, IfOk, IfSome};
ghost use Rattle.std.specs.Io.KnownBytes.{Consumes, IsAtEnd};
ghost use Rattle.std.specs.Counts.{IsPrefixLen};
ghost use Rattle.reading.specs.Read.{size_read};

use std::io;
use std::io::Read;

// A read failed, after so many bytes.
#[derive(Debug, Drop)]
pub struct ReadFailed {
    pub size: usize,
    pub error: io::Error,
}

impl From<ReadFailed> for io::Error {
    ghost from_gives = { λ failed error. error ≡ failed.error };

    fn from(failed: ReadFailed) -> io::Error {
        failed.error
    }
}

// Reads until the input ends, the buffer is full or a read fails, and answers how many bytes it put at the buffer's front.
// A read may give fewer bytes than there is room for, so that the turns of the loop are not counted.
pub fn read_full<R: Read>(reader: &mut R, buffer: &mut [u8]) -> Result<usize, ReadFailed>
    ensures size { IsPrefixLen (size_read result) buffer.new }
    ensures bytes { Consumes (R.remaining reader.old) (R.remaining reader.new) (take (size_read result) buffer.new) }
    ensures end { IfOk result (λ size. size < length buffer.new → IsAtEnd (R.remaining reader.new)) }
    ensures front { IfOk result (λ size. IfSome (R.remaining reader.old)
        (λ input. take size buffer.new ≡ take (length buffer.new) input)) }
{
    let mut size = 0;
    while size < buffer.len() {
        match reader.read(&mut buffer[size..]) {
            Ok(0) => return Ok(size),
            Ok(more) => size += more,
            Err(error) => return Err(ReadFailed { size, error }),
        }
    }
    Ok(size)
}
