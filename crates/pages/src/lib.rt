// All pages of a list in one call (document 02). The list is gone through twice: nothing may be written before it is known that all pages have
// room, and nothing short of the list tells how many they are.
#![tactic(auto)]

ghost use Rattle.std.specs.Prelude.{◌≡◌, ◌++◌, ◌+◌, ◌*◌, ◌≤◌, min, length, drop};
ghost use Rattle.std.specs.Int.{w64};
ghost use Rattle.std.proofs.Common.{Fits};
ghost use Rattle.terms.specs.Refusal.{refusal};
ghost use Rattle.terms.specs.Remarks.{HoldsRemark};
ghost use Rattle.expansion.specs.Levels.{tables, AllTables};
ghost use Rattle.listing.specs.Listing.{asks};
ghost use Rattle.listing.specs.Calls.{asked_rules};
ghost use Rattle.paper.specs.Paper.{page_bytes};
ghost use Rattle.printing.specs.Printing.{BeginInput};
ghost use Rattle.pages.specs.PagesCall.{pages_of, pages_needed, pages_answer, pages_output};

use expansion::levels::{COUNTS, PLACES};
use fleet::{Answer, Fleet};
use occurrence::PATTERN_NODES;
use paper::{LINES, PAGE};
use printing::Printing;
use search::Request;

// The number of pages, or, where they are more than `most`, one more than that: counting ends there.
fn count(
    fleet: &[u16],
    request: Request,
    most: usize,
    parents: &[u16; Fleet::NODES],
    numbers: &[u8; Fleet::NODES],
    sizes: &[u8; Fleet::NODES],
    places: &mut [u16; PLACES],
    lens: &mut [usize; PATTERN_NODES],
    counts: &mut [u8; COUNTS],
    known: &mut [bool; PATTERN_NODES],
) -> usize
    requires { BeginInput fleet.now request (tables parents.now numbers.now sizes.now places.old lens.old counts.old known.old) × Fits w64 (most + 1) }
    ensures value { result ≡ min (pages_needed (asks fleet.now request)) (most + 1) }
    ensures all_tables { AllTables fleet.now (tables parents.now numbers.now sizes.now places.new lens.new counts.new known.new) }
{
    let mut printing = Printing::begin(
        fleet, request, parents, numbers, sizes, places, lens, counts, known,
    );
    let mut pages = 0;
    let mut used = 0;
    while pages < most {
        let lines = printing.lines();
        if lines == 0 {
            return pages + 1;
        }
        used += lines;
        if used > LINES {
            pages += 1;
            used = lines;
        }
        printing = printing.onward(fleet, parents, numbers, sizes, places, lens, counts, known);
    }
    most + 1
}

// Prints so many pages, one after the other, to the front of the output. The caller shows that these are all, and that there is room for them.
fn print(
    fleet: &[u16],
    request: Request,
    pages: usize,
    parents: &[u16; Fleet::NODES],
    numbers: &[u8; Fleet::NODES],
    sizes: &[u8; Fleet::NODES],
    places: &mut [u16; PLACES],
    lens: &mut [usize; PATTERN_NODES],
    counts: &mut [u8; COUNTS],
    known: &mut [bool; PATTERN_NODES],
    output: &mut [u8],
)
    requires { BeginInput fleet.now request (tables parents.now numbers.now sizes.now places.old lens.old counts.old known.old) × (pages ≡ pages_needed (asks fleet.now request)) × (pages * page_bytes ≤ length output.old) }
    ensures { output.new ≡ pages_of (asks fleet.now request) ++ drop (length (pages_of (asks fleet.now request))) output.old }
{
    let mut printing = Printing::begin(
        fleet, request, parents, numbers, sizes, places, lens, counts, known,
    );
    for page in 0..pages {
        let printed = printing.page(
            fleet,
            parents,
            numbers,
            sizes,
            places,
            lens,
            counts,
            known,
            &mut output[page * PAGE..],
        );
        printing = printed.printing;
    }
}

// The pages of a request that is not refused, if the output has room for them. The fleet has no remarks.
fn print_if_room(fleet: &[u16], request: Request, output: &mut [u8]) -> Answer
    requires { ¬ HoldsRemark fleet.now × (refusal (asked_rules (asks fleet.now request)) ≡ 0) }
    ensures value { result ≡ pages_answer (asks fleet.now request) output.old }
    ensures output_after { output.new ≡ pages_output (asks fleet.now request) output.old }
{
    let mut parents = [0u16; Fleet::NODES];
    let mut numbers = [0u8; Fleet::NODES];
    let mut sizes = [0u8; Fleet::NODES];
    let mut places = [0u16; PLACES];
    let mut lens = [0usize; PATTERN_NODES];
    let mut counts = [0u8; COUNTS];
    let mut known = [false; PATTERN_NODES];
    index::index(fleet, &mut parents, &mut numbers, &mut sizes);
    let most = output.len() / PAGE;
    let pages = count(
        fleet,
        request,
        most,
        &parents,
        &numbers,
        &sizes,
        &mut places,
        &mut lens,
        &mut counts,
        &mut known,
    );
    if pages > most {
        return Answer::Refused(fleet::refusal::SHORT_PAGES);
    }
    print(
        fleet,
        request,
        pages,
        &parents,
        &numbers,
        &sizes,
        &mut places,
        &mut lens,
        &mut counts,
        &mut known,
        output,
    );
    Answer::Done(pages)
}

// The same of any accepted fleet: the list is that of the fleet with remarks taken out.
fn print_counted(fleet: &[u16], request: Request, output: &mut [u8]) -> Answer
    requires { refusal (asked_rules (asks fleet.now request)) ≡ 0 }
    ensures value { result ≡ pages_answer (asks fleet.now request) output.old }
    ensures output_after { output.new ≡ pages_output (asks fleet.now request) output.old }
{
    if !remarks::any(fleet) {
        return print_if_room(fleet, request, output);
    }
    let mut counted = [0u16; Fleet::NODES];
    let len = remarks::copy_without(fleet, &mut counted);
    print_if_room(&counted[..len], request, output)
}

// The list on pages, in front of the output. The answer is the number of pages.
pub fn pages(fleet: &[u16], request: Request, output: &mut [u8]) -> Answer
    ensures value { result ≡ pages_answer (asks fleet.now request) output.old }
    ensures output_after { output.new ≡ pages_output (asks fleet.now request) output.old }
{
    if !fleet::is_fleet(fleet) {
        return Answer::Refused(fleet::refusal::NO_FLEET);
    }
    let number = listing::request_refusal(request);
    if number != 0 {
        return Answer::Refused(number);
    }
    print_counted(fleet, request, output)
}
