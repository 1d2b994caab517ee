// The list on pages (document 02): threshold, size bound and sheet from standard input, as the key program takes them, the pages to standard output.
#![tactic(auto)]

ghost use Rattle.std.specs.Prelude.{◌≡◌, Bool, false, List, ℕ, length};
ghost use Rattle.std.specs.Io.KnownBytes.{Appends};
ghost use Rattle.expansion.specs.Levels.{tables};
ghost use Rattle.listing.specs.Listing.{asks};
ghost use Rattle.entries.specs.Entries.{list_of};
ghost use Rattle.run.specs.Running.{AnyTables};
ghost use Rattle.lines.specs.Lines.{refusal_line};
ghost use Rattle.layout.specs.Pages.{key_pages};
ghost use Rattle.printing.specs.Printing.{BeginInput};
ghost use Rattle.streams.specs.Input.{Within};
ghost use Rattle.key.specs.Input.{most_input_bytes, request_by, sheet_of};
ghost use Rattle.pages_main.specs.Output.{paper_output};
ghost use Rattle.pages_main.specs.Writing.{RefusalTold, PagesWritten, PrintedFor};

use expansion::levels::{COUNTS, PLACES};
use fleet::{Answer, Fleet};
use occurrence::PATTERN_NODES;
use paper::PAGE;
use printing::Printing;
use search::Request;
use std::io;
use std::io::{Read, Write};

// The printing after the last page that was written, and whether the next page could not be.
#[derive(Clone, Copy)]
struct Rest {
    printing: Printing,
    failed: bool,
}

// Writes the pages of a list, one after the other, until nothing is left or a write fails.
fn write_pages<W: Write>(
    out: &mut W,
    fleet: &[u16],
    request: Request,
    parents: &[u16; Fleet::NODES],
    numbers: &[u8; Fleet::NODES],
    sizes: &[u8; Fleet::NODES],
) -> Rest
    requires { (places lens counts : List ℕ) (known : List Bool) → AnyTables places lens counts known → BeginInput fleet.now request (tables parents.now numbers.now sizes.now places lens counts known) }
    ensures written { PagesWritten fleet.now (list_of (asks fleet.now request)) result }
    ensures bytes { result.failed ≡ false → Appends (W.contents out.old) (W.contents out.new) (key_pages (list_of (asks fleet.now request))) }
{
    let mut places = [0u16; PLACES];
    let mut lens = [0usize; PATTERN_NODES];
    let mut counts = [0u8; COUNTS];
    let mut known = [false; PATTERN_NODES];
    let mut buffer = [0u8; PAGE];
    let mut printing = Printing::begin(
        fleet,
        request,
        parents,
        numbers,
        sizes,
        &mut places,
        &mut lens,
        &mut counts,
        &mut known,
    );
    loop {
        let printed = printing.page(
            fleet,
            parents,
            numbers,
            sizes,
            &mut places,
            &mut lens,
            &mut counts,
            &mut known,
            &mut buffer,
        );
        let len = printed.len;
        if len == 0 {
            return Rest {
                printing: printing,
                failed: false,
            };
        }
        if out.write_all(&buffer[..len]).is_err() {
            return Rest {
                printing: printing,
                failed: true,
            };
        }
        let next = printed.printing;
        printing = next;
    }
}

// Writes the line of a refusal; whether it could not be written.
fn tell<W: Write>(out: &mut W, number: u8) -> bool
    ensures told { RefusalTold number result }
    ensures bytes { result ≡ false → Appends (W.contents out.old) (W.contents out.new) (refusal_line number) }
{
    let mut line = [0u8; lines::LINE];
    let len = lines::refusal_line(number, &mut line);
    out.write_all(&line[..len]).is_err()
}

// Prints what an input asks for, or tells its refusal; whether a part of that could not be written.
fn print<W: Write>(out: &mut W, input: &[u8]) -> bool
    ensures printed { PrintedFor (request_by input.now) (sheet_of input.now) result }
    ensures bytes { result ≡ false → Appends (W.contents out.old) (W.contents out.new) (paper_output input.now) }
{
    let mut memory = [0u16; Fleet::NODES];
    let mut parents = [0u16; Fleet::NODES];
    let mut numbers = [0u8; Fleet::NODES];
    let mut sizes = [0u8; Fleet::NODES];
    let request = key::request_by(input);
    let answer = opening::read(
        request,
        key::sheet_in(input),
        &mut memory,
        &mut parents,
        &mut numbers,
        &mut sizes,
    );
    match answer {
        Answer::Refused(number) => tell(out, number),
        Answer::Done(nodes) => {
            let rest = write_pages(out, &memory[..nodes], request, &parents, &numbers, &sizes);
            rest.failed
        }
    }
}

// Reads as much of standard input as the key program takes. The length of the array is that much by its type.
fn read_input(reader: &mut impl Read, input: &mut [u8; key::INPUT]) -> io::Result<usize>
    ensures within { Within result (length input.new) }
    ensures input_len { length input.new ≡ most_input_bytes }
{
    streams::read(reader, input)
}

fn main(rt: HostRuntime) {
    let mut input = [0u8; key::INPUT];
    match read_input(&mut rt.stdin(), &mut input) {
        Ok(size) => {
            if print(&mut rt.stdout(), &input[..size]) {
                streams::not_written(&mut rt.stderr());
            }
        }
        Err(_) => streams::not_read(&mut rt.stderr()),
    }
}
