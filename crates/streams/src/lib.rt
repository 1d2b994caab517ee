// A program's standard input, read to its end or until there is enough of it, and what is said where reading or writing fails. A read that
// fails is not taken for the end.
#![tactic(auto)]

ghost use Rattle.std.specs.Prelude.{◌≡◌, length};
ghost use Rattle.streams.specs.Input.{told_by, Within, TakenFrom};

use std::io;
use std::io::{Read, Write};

// What the answer of a reader's `read` tells: how many bytes it put down, at least one; none at the end of the input; or why it failed.
pub fn told(answer: io::Result<usize>) -> io::Result<Option<usize>>
    ensures { result ≡ told_by answer }
{
    match answer {
        Ok(0) => Ok(None),
        Ok(count) => Ok(Some(count)),
        Err(error) => Err(error),
    }
}

// Reads until the buffer is full, the input ends or a read fails; how many bytes were put at the front of the buffer, all that there are or as
// many as it holds. A read that a signal interrupts has failed.
pub fn read<R: Read>(reader: &mut R, buffer: &mut [u8]) -> io::Result<usize>
    ensures within { Within result (length buffer.new) }
    ensures bytes { TakenFrom (R.remaining reader.old) (R.remaining reader.new) buffer.new result }
{
    let mut size = 0;
    while size < buffer.len() {
        let Some(more) = told(reader.read(&mut buffer[size..]))? else {
            return Ok(size);
        };
        size += more;
    }
    Ok(size)
}

// The programs end with status 0 whatever comes of them: a fixed line on standard error says that one failed, and the command that runs it
// gives the status. Where this line cannot be written either, nothing is left to say.
pub fn not_read(error: &mut impl Write) {
    let _ = error.write_all(b"input not read\n");
}

pub fn not_written(error: &mut impl Write) {
    let _ = error.write_all(b"output not written\n");
}
