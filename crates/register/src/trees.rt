// A register kept tree by tree: a vehicle's tree joins it, or leaves it. For the functions that make one, and for the crate above.
ghost use Rattle.std.specs.Prelude.{◌≡◌, suc, ◌%◌, ◌≤◌, length};
ghost use Rattle.register.specs.Register.{most_label};
ghost use Rattle.register.specs.Trees.{AddInput, TakeInput, AddAllInput, Added, AllAdded, Cleared, Taken};

use crate::LABELS;
use fleet::Pair;

// Where the entry of a pair's label stands.
fn entry_of(pair: u16) -> usize
    requires { 1 ≤ pair % 1000 }
    ensures { suc result ≡ pair % 1000 }
{
    (pair % Pair::UNIT) as usize - 1
}

// No node is counted, and nobody is in a set.
pub fn clear(nodes: &mut [u16], holders: &mut [u64])
    requires { (most_label ≤ length nodes.old) × (most_label ≤ length holders.old) }
    ensures { Cleared nodes.old holders.old nodes.new holders.new }
{
    nodes[..LABELS].fill(0);
    holders[..LABELS].fill(0);
}

// The tree of the vehicle joins.
pub fn add(tree: &[u16], vehicle: usize, nodes: &mut [u16], holders: &mut [u64])
    requires { AddInput tree.now vehicle nodes.old holders.old }
    ensures { Added tree.now vehicle nodes.old holders.old nodes.new holders.new }
{
    for pair in tree {
        let entry = entry_of(*pair);
        nodes[entry] += 1;
        holders[entry] = sets::with(holders[entry], vehicle);
    }
}

// The tree of the vehicle leaves. Not one function with `add`: they differ in both lines of the loop, and would share only its head.
pub fn take(tree: &[u16], vehicle: usize, nodes: &mut [u16], holders: &mut [u64])
    requires { TakeInput tree.now vehicle nodes.old holders.old }
    ensures { Taken tree.now vehicle nodes.old holders.old nodes.new holders.new }
{
    for pair in tree {
        let entry = entry_of(*pair);
        nodes[entry] -= 1;
        holders[entry] = sets::without(holders[entry], vehicle);
    }
}

// The trees of all vehicles join a register of nothing.
pub fn add_all(fleet: &[u16], nodes: &mut [u16], holders: &mut [u64])
    requires { AddAllInput fleet.now nodes.old holders.old }
    ensures { AllAdded fleet.now nodes.old holders.old nodes.new holders.new }
{
    let mut at = 0;
    let mut vehicle = 1;
    while at < fleet.len() {
        let end = vehicles::tree_end(fleet, at);
        add(&fleet[at..end], vehicle, nodes, holders);
        at = end;
        vehicle += 1;
    }
}
