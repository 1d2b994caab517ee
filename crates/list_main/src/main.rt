// The list at a request of its caller (document 02): threshold, size bound, profile and sheet from standard input, the list to standard output.
#![tactic(auto)]

ghost use Rattle.std.specs.Prelude.{◌≡◌, false, length};
ghost use Rattle.std.specs.Io.KnownBytes.{Appends};
ghost use Rattle.streams.specs.Input.{Within};
ghost use Rattle.writing_out.specs.Writing.{ListedFor};
ghost use Rattle.list_main.specs.Header.{list_request, list_sheet, list_output, most_list_input_bytes};

use fleet::Fleet;
use header::{byte_at, sheet_behind};
use search::Request;
use std::io;
use std::io::{Read, Write};

// The bytes in front of the sheet: two of the threshold, one of the size bound, one of the profile.
const HEADER: usize = 4;

// The bytes of the input that are read: these, and of the sheet what decides any.
const INPUT: usize = Fleet::SHEET + HEADER;

fn request_by(input: &[u8]) -> Request
    ensures { result ≡ list_request input.now }
{
    Request {
        threshold: byte_at(input, 0) as usize + 256 * (byte_at(input, 1) as usize),
        bound: byte_at(input, 2) as usize,
        profile: byte_at(input, 3) as usize,
    }
}

fn sheet_in(input: &[u8]) -> &[u8]
    ensures { result.now ≡ list_sheet input.now }
{
    sheet_behind(input, HEADER)
}

// Lists what an input asks for; whether a part of the list could not be written.
fn list<W: Write>(out: &mut W, input: &[u8]) -> bool
    ensures listed { ListedFor (list_output input.now) result }
    ensures bytes { result ≡ false → Appends (W.contents out.old) (W.contents out.new) (list_output input.now) }
{
    writing_out::list(out, request_by(input), sheet_in(input))
}

// Reads as much of standard input as the program takes. The length of the array is that much by its type.
fn read_input(reader: &mut impl Read, input: &mut [u8; INPUT]) -> io::Result<usize>
    ensures within { Within result (length input.new) }
    ensures input_len { length input.new ≡ most_list_input_bytes }
{
    streams::read(reader, input)
}

fn main(rt: HostRuntime) {
    let mut input = [0u8; INPUT];
    match read_input(&mut rt.stdin(), &mut input) {
        Ok(size) => {
            if list(&mut rt.stdout(), &input[..size]) {
                streams::not_written(&mut rt.stderr());
            }
        }
        Err(_) => streams::not_read(&mut rt.stderr()),
    }
}
