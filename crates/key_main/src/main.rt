// The key program (document 01, under "The list"): threshold, size bound and sheet from standard input, the list to standard output.
#![tactic(auto)]

ghost use Rattle.std.specs.Prelude.{◌≡◌, false, length};
ghost use Rattle.std.specs.Io.KnownBytes.{Appends};
ghost use Rattle.streams.specs.Input.{Within};
ghost use Rattle.writing_out.specs.Writing.{ListedFor};
ghost use Rattle.key.specs.Input.{most_input_bytes};
ghost use Rattle.key.specs.Output.{key_output};

use std::io;
use std::io::{Read, Write};

// Lists what an input asks for; whether a part of the list could not be written.
fn list<W: Write>(out: &mut W, input: &[u8]) -> bool
    ensures listed { ListedFor (key_output input.now) result }
    ensures bytes { result ≡ false → Appends (W.contents out.old) (W.contents out.new) (key_output input.now) }
{
    writing_out::list(out, key::request_by(input), key::sheet_in(input))
}

// Reads as much of standard input as the key program takes. The length of the array is that much by its type.
fn read_input(reader: &mut impl Read, input: &mut [u8; key::INPUT]) -> io::Result<usize>
    ensures within { Within result (length input.new) }
    ensures input_len { length input.new ≡ most_input_bytes }
{
    streams::read(reader, input)
}

fn main(rt: HostRuntime) {
    let mut input = [0u8; key::INPUT];
    match read_input(&mut rt.stdin(), &mut input) {
        Ok(size) => {
            if list(&mut rt.stdout(), &input[..size]) {
                streams::not_written(&mut rt.stderr());
            }
        }
        Err(_) => streams::not_read(&mut rt.stderr()),
    }
}
