// The sheet: the records of a fleet's nodes, one by one, read and written. Document 01, "The sheet".
#![tactic(auto)]

ghost use Rattle.std.specs.Prelude.{◌≡◌, List, ℕ, ◌<◌, length};
ghost use Rattle.fleet.specs.Reader.{StateOf};
ghost use Rattle.record.specs.Judging.{JudgedAt};
ghost use Rattle.sheet.specs.Walking.{Walked, Moved};
ghost use Rattle.sheet.specs.Reading.{read_answer, read_output};
ghost use Rattle.sheet.specs.WriteCall.{write_answer, write_output};

use fleet::{Answer, State, refusal};
use record;
use record::Judged;
use writing;

mod reading; // reading.rt: the two passes of `read`

// One record: its depth and label; or the end of the sheet; or the number of its refusal.
#[derive(Clone, Copy)]
pub enum RecordAnswer {
    Node(u16, u16),
    End,
    Refused(u8),
}

#[derive(Clone, Copy)]
pub struct Advance {
    pub answer: RecordAnswer,
    pub next: usize,
    pub state: State,
}

fn refused(number: u8, at: usize, state: State) -> Advance
    ensures { (result.answer ≡ RecordAnswer.Refused number) × ((result.next ≡ at) × (result.state ≡ state)) }
{
    Advance {
        answer: RecordAnswer::Refused(number),
        next: at,
        state: state,
    }
}

// The record at a position within the sheet, by the rules 2 to 9.
fn judge_behind(state: State, sheet: &[u8], at: usize) -> Judged
    requires { at < length sheet.now }
    ensures { JudgedAt sheet.now at state.reader state.families result }
{
    let table = fleet::rules::family_table();
    let families = state.families();
    record::judge(&table, sheet, at, state.reader(), &families)
}

// The record at a position: its node with the next position and state; or end, or the number of its refusal, with both as they were.
pub fn record_at(sheet: &[u8], at: usize, state: State) -> Advance
    ensures by_index { (before : List ℕ) → StateOf before state → Walked before sheet.now at result }
    ensures moved { Moved result.answer at state result.next result.state (length sheet.now) }
{
    let reader = state.reader();
    if at >= sheet.len() {
        if reader.nodes == 0 {
            return refused(refusal::NO_BYTES, at, state);
        }
        return Advance {
            answer: RecordAnswer::End,
            next: at,
            state: state,
        };
    }
    let judged = judge_behind(state, sheet, at);
    if judged.number > 0 {
        return refused(judged.number, at, state);
    }
    Advance {
        answer: RecordAnswer::Node(judged.depth, judged.label),
        next: judged.next,
        state: state.after(judged.depth, judged.label),
    }
}

// The pairs of a sheet, put at the front of the output; or a refusal, and the output is as it was.
pub fn read(sheet: &[u8], output: &mut [u16]) -> Answer
    ensures value { result ≡ read_answer sheet.now output.old }
    ensures output_after { output.new ≡ read_output sheet.now output.old }
{
    let counted = reading::count(sheet);
    match counted {
        Answer::Refused(number) => Answer::Refused(number),
        Answer::Done(nodes) => {
            if output.len() < nodes {
                return Answer::Refused(refusal::SHORT_OUTPUT);
            }
            reading::fill(sheet, output);
            Answer::Done(nodes)
        }
    }
}

// The sheet of a fleet, put at the front of the output; or a refusal, and the output is as it was.
pub fn write(pairs: &[u16], output: &mut [u8]) -> Answer
    ensures value { result ≡ write_answer pairs.now output.old }
    ensures output_after { output.new ≡ write_output pairs.now output.old }
{
    if fleet::is_fleet(pairs) {
        let size = writing::size(pairs);
        if output.len() < size {
            return Answer::Refused(refusal::SHORT_OUTPUT);
        }
        writing::fill(pairs, output);
        return Answer::Done(size);
    }
    Answer::Refused(refusal::NO_FLEET)
}
