// A vehicle's tree swapped for another, in the fleet and in its label register. Document 02, "a label register beside the fleet".
#![tactic(auto)]

ghost use Rattle.std.specs.Prelude.{◌≡◌};
ghost use Rattle.terms.specs.Tells.{Tells, decided};
ghost use Rattle.terms.proofs.FleetLaws.{vehicle?};
ghost use Rattle.swap.specs.Swap.{RightlyLent, swap_of, swap_answer, buffer_after, nodes_after, holders_after};

use fleet::{Answer, Fleet, refusal};
use register::trees;

// Whether a fleet could hold the tree: as a fleet of its own it is one tree.
fn is_vehicle(tree: &[u16]) -> bool
    ensures { result ≡ decided (vehicle? tree.now) }
{
    if !fleet::is_fleet(tree) {
        return false;
    }
    vehicles::tree_end(tree, 0) == tree.len()
}

// Whether what is lent is right in itself: 10.
fn rightly_lent(buffer: &[u16], used: usize, tree: &[u16], nodes: &[u16], holders: &[u64]) -> bool
    ensures { Tells result (RightlyLent buffer.now used tree.now nodes.now holders.now) }
{
    if used > buffer.len() {
        return false;
    }
    let fleet = &buffer[..used];
    if !fleet::is_fleet(fleet) {
        return false;
    }
    if !is_vehicle(tree) {
        return false;
    }
    if !register::is_register(fleet, nodes, holders) {
        return false;
    }
    true
}

// Swaps the vehicle's tree for another: the pairs behind it move, and the register is brought up to date by the two trees alone. The answer is the
// new number of pairs.
pub fn swap(
    buffer: &mut [u16],
    used: usize,
    vehicle: usize,
    tree: &[u16],
    nodes: &mut [u16],
    holders: &mut [u64],
) -> Answer
    ensures value { result ≡ swap_answer (swap_of buffer.old used vehicle tree.now nodes.old holders.old) }
    ensures buffer_after { buffer.new ≡ buffer_after (swap_of buffer.old used vehicle tree.now nodes.old holders.old) }
    ensures nodes_after { nodes.new ≡ nodes_after (swap_of buffer.old used vehicle tree.now nodes.old holders.old) }
    ensures holders_after { holders.new ≡ holders_after (swap_of buffer.old used vehicle tree.now nodes.old holders.old) }
{
    if !rightly_lent(buffer, used, tree, nodes, holders) {
        return Answer::Refused(refusal::NO_FLEET);
    }
    let room = buffer.len();
    let fleet = &buffer[..used];
    let from = vehicles::tree_start(fleet, vehicle);
    if from == used {
        return Answer::Refused(refusal::VEHICLE);
    }
    let to = vehicles::tree_end(fleet, from);
    let total = from + tree.len() + (used - to);
    if total > Fleet::NODES {
        return Answer::Refused(refusal::NO_FLEET);
    }
    if total > room {
        return Answer::Refused(refusal::SHORT_OUTPUT);
    }
    let old = &fleet[from..to];
    trees::take(old, vehicle, nodes, holders);
    trees::add(tree, vehicle, nodes, holders);
    moving::replace(buffer, used, from, to, tree);
    Answer::Done(total)
}
