// Occurrence of a pattern in a data tree, its support in a fleet, and the placing shown (document 01, "Occurrence").
#![tactic(auto)]

ghost use Rattle.std.specs.Prelude.{◌≡◌};
ghost use Rattle.terms.specs.Tells.{Tells};
ghost use Rattle.terms.specs.Placing.{Occurs};
ghost use Rattle.occurrence.specs.Support.{whole_support};
ghost use Rattle.matching.specs.FitsSteps.{OccursInput};
ghost use Rattle.occurrence.specs.CountSteps.{CountInput};
ghost use Rattle.terms.specs.Refusal.{refusal};
ghost use Rattle.occurrence.specs.SupportCall.{support_rules, support_answer};
ghost use Rattle.occurrence.specs.PlaceCall.{place_answer, place_output};

use fleet::{Answer, refusal};

// The most nodes of a pattern.
pub const PATTERN_NODES: usize = matching::PATTERN_NODES;

// Whether the pattern occurs in the tree.
fn occurs(pattern: &[u16], tree: &[u16]) -> bool
    requires { OccursInput pattern.now tree.now }
    ensures { Tells result (Occurs pattern.now tree.now) }
{
    // Measuring the subtrees would take longer than it saves: zeros are lent.
    let sizes = [0u8; fleet::Fleet::TREE_NODES];
    for node in 0..tree.len() {
        if matching::occurs_at(pattern, tree, &sizes, node) {
            return true;
        }
    }
    false
}

// In how many vehicles' trees the pattern occurs. A pattern that has no remark is then placed at none.
fn count_trees(fleet: &[u16], pattern: &[u16]) -> usize
    requires { CountInput fleet.now pattern.now }
    ensures { result ≡ whole_support fleet.now pattern.now }
{
    let mut count = 0;
    let mut start = 0;
    while start < fleet.len() {
        let end = vehicles::tree_end(fleet, start);
        if occurs(pattern, &fleet[start..end]) {
            count += 1;
        }
        start = end;
    }
    count
}

// The number of the first of the rules 10, 13 and 14 that is broken, 0 if none is.
fn pattern_refusal(fleet: &[u16], pattern: &[u16]) -> u8
    ensures { result ≡ refusal (support_rules fleet.now pattern.now) }
{
    if !fleet::is_fleet(fleet) {
        return refusal::NO_FLEET;
    }
    if pattern.len() == 0 {
        return refusal::PATTERN_SIZE;
    }
    if pattern.len() > PATTERN_NODES {
        return refusal::PATTERN_SIZE;
    }
    if !tree::is_tree(pattern) {
        return refusal::NO_TREE;
    }
    0
}

// The support of the pattern in the fleet. No vehicle holds a pattern with a remark.
pub fn support(fleet: &[u16], pattern: &[u16]) -> Answer
    ensures { result ≡ support_answer fleet.now pattern.now }
{
    let number = pattern_refusal(fleet, pattern);
    if number > 0 {
        return Answer::Refused(number);
    }
    if remarks::any(pattern) {
        return Answer::Done(0);
    }
    Answer::Done(count_trees(fleet, pattern))
}

// What a call for a placing answers: that the output begins with a placing of so many nodes, that there is none, or its refusal's number.
#[derive(Clone, Copy)]
pub enum Placement {
    Placed(usize),
    Nowhere,
    Refused(u8),
}

// Writes the heaviest placing of the pattern in the vehicle's tree, as node numbers from 1, if it occurs there. The numbers count remarks too, but no
// pattern node is placed at one: a pattern that has none keeps off them by its labels.
pub fn place(fleet: &[u16], vehicle: usize, pattern: &[u16], output: &mut [u16]) -> Placement
    ensures { (result ≡ place_answer fleet.now vehicle pattern.now output.old) × (output.new ≡ place_output fleet.now vehicle pattern.now output.old) }
{
    let number = pattern_refusal(fleet, pattern);
    if number > 0 {
        return Placement::Refused(number);
    }
    let tree = vehicles::tree(fleet, vehicle);
    if tree.len() == 0 {
        return Placement::Refused(refusal::VEHICLE);
    }
    if output.len() < pattern.len() {
        return Placement::Refused(refusal::SHORT_OUTPUT);
    }
    if remarks::any(pattern) {
        return Placement::Nowhere;
    }
    if heaviest::write(pattern, tree, output) {
        return Placement::Placed(pattern.len());
    }
    Placement::Nowhere
}
