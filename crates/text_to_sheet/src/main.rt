// A fleet as text (see the library `sheet_text`) from standard input, its sheet to standard output; or the wrong line and the cause to
// standard error, and nothing to standard output.
#![tactic(auto)]

ghost use Rattle.std.specs.Prelude.{◌≡◌, length};
ghost use Rattle.streams.specs.Input.{Within};
ghost use Rattle.text.specs.Building.{Put};
ghost use Rattle.sheet_text.specs.TextReading.{text_reading};
ghost use Rattle.text_to_sheet.specs.Converting.{converted_from, sheet_after, SheetWithin, complaint_line};

use fleet::Answer;
use sheet_text::Parsed;
use std::io;
use std::io::{Read, Write};

// What becomes of a text: so many bytes of a sheet, or the first wrong line and the cause.
#[derive(Clone, Copy)]
enum Converted {
    Sheet(usize),
    Wrong(usize, u8),
}

// Puts the sheet of a text's fleet at the front of the array; or says where the text goes wrong, and the array is as it was.
fn convert(text: &[u8], sheet: &mut [u8; fleet::Fleet::SHEET]) -> Converted
    ensures value { result ≡ converted_from (text_reading text.now) }
    ensures sheet_after { sheet.new ≡ sheet_after (text_reading text.now) sheet.old }
    ensures sheet_within { SheetWithin result (length sheet.new) }
{
    let mut pairs = [0u16; fleet::Fleet::NODES];
    let parsed = sheet_text::parse(text, &mut pairs);
    match parsed {
        Parsed::Refused(line, cause) => Converted::Wrong(line, cause),
        Parsed::Pairs(nodes) => {
            let written = sheet::write(&pairs[..nodes], sheet);
            match written {
                Answer::Done(size) => Converted::Sheet(size),
                Answer::Refused(number) => Converted::Wrong(0, number),
            }
        }
    }
}

// The line that says where a text goes wrong, and why, put in front of the lent one; how many bytes it has.
fn complaint(line: usize, cause: u8, said: &mut [u8; lines::LINE]) -> usize
    ensures { Put said.old 0 (complaint_line line cause) said.new result }
{
    let word = text::put_bytes(b"line ", said, 0);
    let place = text::put_number(line, said, word);
    if cause == sheet_text::NO_PAIR {
        return text::put_bytes(b": no pair\n", said, place);
    }
    if cause == sheet_text::TOO_LONG {
        return text::put_bytes(b": text too long\n", said, place);
    }
    let refused = text::put_bytes(b": refused ", said, place);
    let numbered = text::put_number(cause as usize, said, refused);
    text::put_byte(b'\n', said, numbered)
}

// Reads as much of standard input as tells whether a text is too long. The length of the array is that much by its type.
fn read_input(reader: &mut impl Read, input: &mut [u8; sheet_text::INPUT]) -> io::Result<usize>
    ensures { Within result (length input.new) }
{
    streams::read(reader, input)
}

// Writes the sheet of a text, or what is wrong with the text.
fn answer(out: &mut impl Write, error: &mut impl Write, text: &[u8]) {
    let mut sheet = [0u8; fleet::Fleet::SHEET];
    let converted = convert(text, &mut sheet);
    match converted {
        Converted::Sheet(size) => {
            if out.write_all(&sheet[..size]).is_err() {
                streams::not_written(error);
            }
        }
        Converted::Wrong(line, cause) => {
            let mut said = [0u8; lines::LINE];
            let len = complaint(line, cause, &mut said);
            let _ = error.write_all(&said[..len]);
        }
    }
}

fn main(rt: HostRuntime) {
    let mut input = [0u8; sheet_text::INPUT];
    match read_input(&mut rt.stdin(), &mut input) {
        Ok(size) => answer(&mut rt.stdout(), &mut rt.stderr(), &input[..size]),
        Err(_) => streams::not_read(&mut rt.stderr()),
    }
}
