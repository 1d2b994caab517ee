// What the programs that list write to their output: the lines of a run, part after part.
#![tactic(auto)]

ghost use Rattle.std.specs.Prelude.{◌≡◌, Bool, false, List, ℕ};
ghost use Rattle.std.specs.Io.KnownBytes.{Appends};
ghost use Rattle.expansion.specs.Levels.{tables};
ghost use Rattle.run.specs.Running.{IsRun, AnyTables, still_to_write};
ghost use Rattle.opening.specs.Output.{lines_for};
ghost use Rattle.writing_out.specs.Writing.{WrittenOut, ListedFor};

use expansion::levels::{COUNTS, PLACES};
use fleet::Fleet;
use occurrence::PATTERN_NODES;
use run::Run;
use search::Request;
use std::io::Write;

// The run after the last part that was written, and whether the next part could not be.
#[derive(Clone, Copy)]
struct Rest {
    run: Run,
    failed: bool,
}

// Writes the lines of a run, part after part, until nothing is left or a write fails.
fn write_lines<W: Write>(
    out: &mut W,
    first: Run,
    memory: &[u16],
    parents: &[u16; Fleet::NODES],
    numbers: &[u8; Fleet::NODES],
    sizes: &[u8; Fleet::NODES],
) -> Rest
    requires { (places lens counts : List ℕ) (known : List Bool) → AnyTables places lens counts known → IsRun first memory.now (tables parents.now numbers.now sizes.now places lens counts known) }
    ensures written { WrittenOut first memory.now result }
    ensures bytes { result.failed ≡ false → Appends (W.contents out.old) (W.contents out.new) (still_to_write first memory.now) }
{
    let mut run = first;
    let mut places = [0u16; PLACES];
    let mut lens = [0usize; PATTERN_NODES];
    let mut counts = [0u8; COUNTS];
    let mut known = [false; PATTERN_NODES];
    let mut buffer = [0u8; run::PART];
    loop {
        let part = run.part(
            memory,
            parents,
            numbers,
            sizes,
            &mut places,
            &mut lens,
            &mut counts,
            &mut known,
            &mut buffer,
        );
        let len = part.len;
        if len == 0 {
            return Rest {
                run: run,
                failed: false,
            };
        }
        if out.write_all(&buffer[..len]).is_err() {
            return Rest {
                run: run,
                failed: true,
            };
        }
        let next = part.run;
        run = next;
    }
}

// Lists what a request asks of a sheet; whether a part of the list could not be written.
pub fn list<W: Write>(out: &mut W, request: Request, sheet: &[u8]) -> bool
    ensures listed { ListedFor (lines_for request sheet.now) result }
    ensures bytes { result ≡ false → Appends (W.contents out.old) (W.contents out.new) (lines_for request sheet.now) }
{
    let mut memory = [0u16; Fleet::NODES];
    let mut parents = [0u16; Fleet::NODES];
    let mut numbers = [0u8; Fleet::NODES];
    let mut sizes = [0u8; Fleet::NODES];
    let run = opening::open(
        request,
        sheet,
        &mut memory,
        &mut parents,
        &mut numbers,
        &mut sizes,
    );
    let rest = write_lines(out, run, &memory, &parents, &numbers, &sizes);
    rest.failed
}
