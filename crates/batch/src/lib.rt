// Many forms of the list in one call, for callers who would check the fleet and make the tables for each form.
#![tactic(auto)]

ghost use Rattle.std.specs.Prelude.{◌≡◌};
ghost use Rattle.terms.specs.Fleet.{IsFleet};
ghost use Rattle.terms.specs.Refusal.{refusal};
ghost use Rattle.register.specs.Register.{HoldersIfLent};
ghost use Rattle.listing.specs.Listing.{asks};
ghost use Rattle.filling.specs.Filling.{after_rules};
ghost use Rattle.batch.specs.Batch.{batch_of, batch_answer, batch_output, batch_found};

use filling;
use fleet::Answer;
use search::{Pattern, Request};

// By this the support is multiplied in a form's number.
pub const SUPPORT_UNIT: usize = filling::SUPPORT_UNIT;

// The number of the first rule that a pattern to go on after breaks, 0 if none is: of no pairs, none.
fn after_refusal(pattern: &[u16], bound: usize) -> u8
    ensures { result ≡ refusal (after_rules pattern.now bound) }
{
    if pattern.len() == 0 {
        return 0;
    }
    listing::pattern_refusal(pattern, bound)
}

// A batch, for callers that have shown an accepted fleet. The sets of its label register may be lent in `holders`, or none.
pub fn batch_from(
    fleet: &[u16],
    holders: &[u64],
    request: Request,
    pattern: &[u16],
    output: &mut [u16],
    found: &mut [usize],
) -> Answer
    requires { IsFleet fleet.now × HoldersIfLent fleet.now holders.now }
    ensures value { result ≡ batch_answer (batch_of (asks fleet.now request) pattern.now output.old found.old) }
    ensures output_after { output.new ≡ batch_output (batch_of (asks fleet.now request) pattern.now output.old found.old) }
    ensures found_after { found.new ≡ batch_found (batch_of (asks fleet.now request) pattern.now output.old found.old) }
{
    let number = listing::request_refusal(request);
    if number != 0 {
        return Answer::Refused(number);
    }
    let number = after_refusal(pattern, request.bound);
    if number != 0 {
        return Answer::Refused(number);
    }
    if output.len() < request.bound {
        return Answer::Refused(fleet::refusal::SHORT_OUTPUT);
    }
    if found.len() < 1 {
        return Answer::Refused(fleet::refusal::SHORT_OUTPUT);
    }
    let first = Pattern::of(pattern);
    Answer::Done(filling::fill_counted(first, fleet, holders, request, output, found))
}

// The next forms of the list after a pattern (of no pairs: from the start), as many as surely fit: their pairs end to end in front of the one
// output, their numbers in front of the other. The answer is how many they are; fewer than fit means that the list ends there.
pub fn batch(
    fleet: &[u16],
    request: Request,
    pattern: &[u16],
    output: &mut [u16],
    found: &mut [usize],
) -> Answer
    ensures value { result ≡ batch_answer (batch_of (asks fleet.now request) pattern.now output.old found.old) }
    ensures output_after { output.new ≡ batch_output (batch_of (asks fleet.now request) pattern.now output.old found.old) }
    ensures found_after { found.new ≡ batch_found (batch_of (asks fleet.now request) pattern.now output.old found.old) }
{
    if !fleet::is_fleet(fleet) {
        return Answer::Refused(fleet::refusal::NO_FLEET);
    }
    let none = [0u64; 0];
    batch_from(fleet, &none, request, pattern, output, found)
}
