// A request and a sheet, from the bytes of the sheet to the run that lists (document 01, "The list", the key program); crate run has its lines.
#![tactic(auto)]

ghost use Rattle.std.specs.Prelude.{◌≡◌, Bool, List, ℕ, length, take};
ghost use Rattle.terms.specs.Fleet.{most_nodes};
ghost use Rattle.sheet.specs.Reading.{reading};
ghost use Rattle.expansion.specs.Levels.{tables};
ghost use Rattle.run.specs.Running.{still_to_write, IsRun, AnyTables, nodes_in};
ghost use Rattle.opening.specs.Asking.{counted_for, refusal_for, answer_for, fleet_answer, fleet_output, memory_for, IndexAfter};
ghost use Rattle.opening.specs.Output.{lines_for};
ghost use Rattle.opening.specs.Opening.{Read, IndexMade};

use fleet::{Answer, Fleet};
use run::Run;
use search::Request;

// The pairs of a sheet that are no remarks, put at the front of the memory, and how many they are; or a refusal, and the memory is as it was.
fn read_counted(sheet: &[u8], memory: &mut [u16]) -> Answer
    requires { length memory.old ≡ most_nodes }
    ensures value { result ≡ fleet_answer (reading sheet.now) 0 }
    ensures memory_after { memory.new ≡ fleet_output (reading sheet.now) 0 memory.old }
{
    let answer = sheet::read(sheet, memory);
    match answer {
        Answer::Done(nodes) => Answer::Done(remarks::take_out(&mut memory[..nodes])),
        Answer::Refused(number) => Answer::Refused(number),
    }
}

// The same unless the request is refused: `later` is its refusal, 0 if there is none. Where there is one, the reading is lent no room: it writes
// nothing, a wrong sheet gets its number all the same, and an accepted one gets 17 in place of `later`.
fn read_unless(later: u8, sheet: &[u8], memory: &mut [u16]) -> Answer
    requires { length memory.old ≡ most_nodes }
    ensures value { result ≡ fleet_answer (reading sheet.now) later }
    ensures memory_after { memory.new ≡ fleet_output (reading sheet.now) later memory.old }
{
    if later == 0 {
        return read_counted(sheet, memory);
    }
    let answer = sheet::read(sheet, &mut memory[..0]);
    match answer {
        Answer::Done(_) => Answer::Refused(later),
        Answer::Refused(number) => {
            if number == fleet::refusal::SHORT_OUTPUT {
                return Answer::Refused(later);
            }
            Answer::Refused(number)
        }
    }
}

fn nodes_read(answer: Answer) -> usize
    ensures { result ≡ nodes_in answer }
{
    match answer {
        Answer::Refused(_) => 0,
        Answer::Done(nodes) => nodes,
    }
}

// Makes the tables of the fleet, the first nodes of the memory, if there are any.
fn index_read(
    memory: &[u16],
    nodes: usize,
    parents: &mut [u16; Fleet::NODES],
    numbers: &mut [u8; Fleet::NODES],
    sizes: &mut [u8; Fleet::NODES],
)
    requires { Read memory.now nodes }
    ensures { IndexMade (take nodes memory.now) nodes (parents.old, numbers.old, sizes.old) (parents.new, numbers.new, sizes.new) }
{
    if nodes > 0 {
        index::index(&memory[..nodes], parents, numbers, sizes);
    }
}

// Reads the sheet of a request. The memory gets the pairs of the sheet, those that are no remarks in front, and the three tables are made from
// these, unless the sheet or the request is refused. The answer is how many they are, or the number of the refusal.
pub fn read(
    request: Request,
    sheet: &[u8],
    memory: &mut [u16; Fleet::NODES],
    parents: &mut [u16; Fleet::NODES],
    numbers: &mut [u8; Fleet::NODES],
    sizes: &mut [u8; Fleet::NODES],
) -> Answer
    ensures value { result ≡ answer_for request sheet.now }
    ensures memory_len { length memory.new ≡ most_nodes }
    ensures memory_after { memory.new ≡ memory_for request sheet.now memory.old }
    ensures index_after { IndexAfter (refusal_for request sheet.now) (counted_for request sheet.now) (parents.old, numbers.old, sizes.old) (parents.new, numbers.new, sizes.new) }
{
    let later = listing::request_refusal(request);
    let answer = read_unless(later, sheet, memory);
    let nodes = nodes_read(answer);
    index_read(memory, nodes, parents, numbers, sizes);
    answer
}

// The run that a request and a sheet begin: with the memory and the tables that are read, and with any others at first, it lists.
pub fn open(
    request: Request,
    sheet: &[u8],
    memory: &mut [u16; Fleet::NODES],
    parents: &mut [u16; Fleet::NODES],
    numbers: &mut [u8; Fleet::NODES],
    sizes: &mut [u8; Fleet::NODES],
) -> Run
    ensures memory_after { still_to_write result memory.new ≡ lines_for request sheet.now }
    ensures by_index { (places lens counts : List ℕ) (known : List Bool) → AnyTables places lens counts known → IsRun result memory.new (tables parents.new numbers.new sizes.new places lens counts known) }
    ensures memory_len { length memory.new ≡ most_nodes }
    ensures memory_after_2 { memory.new ≡ memory_for request sheet.now memory.old }
    ensures index_after { IndexAfter (refusal_for request sheet.now) (counted_for request sheet.now) (parents.old, numbers.old, sizes.old) (parents.new, numbers.new, sizes.new) }
{
    let answer = read(request, sheet, memory, parents, numbers, sizes);
    Run::begin(answer, request)
}
