// The vehicles of a fleet: where their trees begin and end, and the tree with a number. A vehicle's tree is a part of the fleet's slice.
// Document 01, "Pairs, trees and the fleet".
#![tactic(auto)]

ghost use Rattle.std.specs.Prelude.{◌≡◌};
ghost use Rattle.vehicles.specs.Vehicle.{TreeEnd, TreeStart, tree_numbered, vehicle_answer};

use fleet::{Answer, Pair, refusal};

// The position after the tree that begins at `at`; behind the last pair, where none begins, the number of pairs.
pub fn tree_end(fleet: &[u16], at: usize) -> usize
    ensures { TreeEnd fleet.now at result }
{
    if at >= fleet.len() {
        return fleet.len();
    }
    for end in at + 1..fleet.len() {
        if fleet[end] < Pair::UNIT {
            return end;
        }
    }
    fleet.len()
}

// Where the tree with this number, from 1, begins; where there is none, the number of pairs.
pub fn tree_start(fleet: &[u16], number: usize) -> usize
    ensures { TreeStart fleet.now number result }
{
    let mut at = 0;
    let mut vehicle = 1;
    while at < fleet.len() {
        if vehicle == number {
            return at;
        }
        at = tree_end(fleet, at);
        vehicle += 1;
    }
    at
}

// The tree with this number, from 1; no pairs where there is none. Of pairs that are no fleet it says nothing else than of a fleet:
// depth 0 begins a tree.
pub fn tree(fleet: &[u16], number: usize) -> &[u16]
    ensures { result.now ≡ tree_numbered fleet.now number }
{
    let from = tree_start(fleet, number);
    let end = tree_end(fleet, from);
    &fleet[from..end]
}

// How many nodes the tree of the vehicle with this number, from 1, has; or the refusal of that number.
pub fn vehicle(fleet: &[u16], number: usize) -> Answer
    ensures { result ≡ vehicle_answer fleet.now number }
{
    if fleet::is_fleet(fleet) {
        let tree = tree(fleet, number);
        if tree.len() == 0 {
            return Answer::Refused(refusal::VEHICLE);
        }
        return Answer::Done(tree.len());
    }
    Answer::Refused(refusal::NO_FLEET)
}
