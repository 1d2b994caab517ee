// A sheet from standard input, its fleet as text (see the library `fleet_text`) to standard output; or the number of the refusal to
// standard error, and nothing to standard output.
#![tactic(auto)]

ghost use Rattle.std.specs.Prelude.{◌≡◌, length};
ghost use Rattle.sheet.specs.Reading.{reading};
ghost use Rattle.streams.specs.Input.{Within};
ghost use Rattle.sheet_to_text.specs.Converting.{text_answer, text_after, TextWithin};

use fleet::Answer;
use std::io;
use std::io::{Read, Write};

// Puts the text of a sheet's fleet at the front of the array, and says how long it is; or refuses, and the array is as it was.
fn convert(sheet: &[u8], text: &mut [u8; fleet_text::FLEET_TEXT]) -> Answer
    ensures value { result ≡ text_answer (reading sheet.now) }
    ensures text_after { text.new ≡ text_after (reading sheet.now) text.old }
    ensures text_within { TextWithin result (length text.new) }
{
    let mut pairs = [0u16; fleet::Fleet::NODES];
    let read = sheet::read(sheet, &mut pairs);
    match read {
        Answer::Refused(number) => Answer::Refused(number),
        Answer::Done(nodes) => fleet_text::print(&pairs[..nodes], text),
    }
}

// Reads as much of standard input as decides any sheet. The length of the array is that much by its type.
fn read_input(reader: &mut impl Read, input: &mut [u8; fleet::Fleet::SHEET]) -> io::Result<usize>
    ensures { Within result (length input.new) }
{
    streams::read(reader, input)
}

// Writes the text of a sheet, or its refusal.
fn answer(out: &mut impl Write, error: &mut impl Write, sheet: &[u8]) {
    let mut text = [0u8; fleet_text::FLEET_TEXT];
    let converted = convert(sheet, &mut text);
    match converted {
        Answer::Done(size) => {
            if out.write_all(&text[..size]).is_err() {
                streams::not_written(error);
            }
        }
        Answer::Refused(number) => {
            let mut line = [0u8; lines::LINE];
            let len = lines::refusal_line(number, &mut line);
            let _ = error.write_all(&line[..len]);
        }
    }
}

fn main(rt: HostRuntime) {
    let mut input = [0u8; fleet::Fleet::SHEET];
    match read_input(&mut rt.stdin(), &mut input) {
        Ok(size) => answer(&mut rt.stdout(), &mut rt.stderr(), &input[..size]),
        Err(_) => streams::not_read(&mut rt.stderr()),
    }
}
