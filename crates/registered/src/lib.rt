// The list with a lent label register (document 02, "a label register beside the fleet"): the calls of `listing` and `batch`. Where the register is this
// fleet's, the search takes the supports of the forms of one node from its sets.
#![tactic(auto)]

ghost use Rattle.std.specs.Prelude.{◌≡◌};
ghost use Rattle.terms.specs.Tells.{Tells};
ghost use Rattle.terms.specs.Fleet.{IsFleet};
ghost use Rattle.register.specs.Register.{IsRegister};
ghost use Rattle.listing.specs.Listing.{asks_with};
ghost use Rattle.listing.specs.Calls.{start, step, outcome, answerTo};
ghost use Rattle.batch.specs.Batch.{batch_of, batch_answer, batch_output, batch_found};

use fleet::Answer;
use listing::Reply;
use search::Request;

// Whether the pairs are a fleet and the register is this fleet's. Both have one refusal.
fn accepted(fleet: &[u16], nodes: &[u16], holders: &[u64]) -> bool
    ensures { Tells result (IsFleet fleet.now × IsRegister fleet.now nodes.now holders.now) }
{
    if !fleet::is_fleet(fleet) {
        return false;
    }
    register::is_register(fleet, nodes, holders)
}

// The start of the listing, with a register.
pub fn start(
    fleet: &[u16],
    nodes: &[u16],
    holders: &[u64],
    request: Request,
    output: &mut [u16],
) -> Reply
    ensures { outcome result output.new ≡ answerTo (start (asks_with fleet.now nodes.now holders.now request) output.old) }
{
    if !accepted(fleet, nodes, holders) {
        return Reply::Refused(fleet::refusal::NO_FLEET);
    }
    listing::start_from(fleet, holders, request, output)
}

// A step of the listing, with a register.
pub fn step(
    fleet: &[u16],
    nodes: &[u16],
    holders: &[u64],
    request: Request,
    pattern: &[u16],
    output: &mut [u16],
) -> Reply
    ensures { outcome result output.new ≡ answerTo (step (asks_with fleet.now nodes.now holders.now request) pattern.now output.old) }
{
    if !accepted(fleet, nodes, holders) {
        return Reply::Refused(fleet::refusal::NO_FLEET);
    }
    listing::step_from(fleet, holders, request, pattern, output)
}

// Many forms of the list in one call, with a register.
pub fn batch(
    fleet: &[u16],
    nodes: &[u16],
    holders: &[u64],
    request: Request,
    pattern: &[u16],
    output: &mut [u16],
    found: &mut [usize],
) -> Answer
    ensures value { result ≡ batch_answer (batch_of (asks_with fleet.now nodes.now holders.now request) pattern.now output.old found.old) }
    ensures output_after { output.new ≡ batch_output (batch_of (asks_with fleet.now nodes.now holders.now request) pattern.now output.old found.old) }
    ensures found_after { found.new ≡ batch_found (batch_of (asks_with fleet.now nodes.now holders.now request) pattern.now output.old found.old) }
{
    if !accepted(fleet, nodes, holders) {
        return Answer::Refused(fleet::refusal::NO_FLEET);
    }
    batch::batch_from(fleet, holders, request, pattern, output, found)
}
