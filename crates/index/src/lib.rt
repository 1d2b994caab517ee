// The fleet's tables: for each node its parent, the number of its vehicle, and how many nodes of its subtree follow it.
#![tactic(auto)]

ghost use Rattle.std.specs.Prelude.{◌≡◌, ◌%◌, ◌≤◌, ◌<◌, length};
ghost use Rattle.terms.specs.Tree.{depthAt};
ghost use Rattle.terms.specs.Tells.{Tells};
ghost use Rattle.terms.specs.Fleet.{IsFleet, most_nodes};
ghost use Rattle.rightmost.specs.Ends.{Up, children};
ghost use Rattle.index.specs.Index.{Parents, Numbers, Sizes, LastChildren, IndexInput, Indexed, ChildInput, LooksFlat};

use fleet::{Fleet, Pair};

// Notes the parent of each node. `above` has for each depth, from 1, the parent of the next node if that is so deep.
fn note_parents(fleet: &[u16], parents: &mut [u16])
    requires { IsFleet fleet.now × (length parents.old ≡ most_nodes) }
    ensures { Parents fleet.now parents.new }
{
    let mut above = [0u16; Fleet::DEPTH as usize + 2];
    for (node, pair) in fleet.iter().enumerate() {
        let depth = (*pair / Pair::UNIT) as usize;
        parents[node] = above[depth];
        above[depth + 1] = node as u16;
    }
}

// Notes how far behind each node its last child stands; 0 of a leaf.
fn note_last_children(fleet: &[u16], parents: &[u16], sizes: &mut [u8])
    requires { IsFleet fleet.now × Parents fleet.now parents.now × (length sizes.old ≡ most_nodes) }
    ensures { LastChildren fleet.now sizes.new }
{
    for (node, pair) in fleet.iter().enumerate() {
        sizes[node] = 0;
        if *pair >= Pair::UNIT {
            let above = parents[node] as usize;
            sizes[above] = (node - above) as u8;
        }
    }
}

// Makes sizes of that, from the last node to the first: a subtree ends where that of its root's last child does. Nothing is tested, as what
// trees do is hard to guess for a processor.
fn measure(fleet: &[u16], sizes: &mut [u8])
    requires { IsFleet fleet.now × LastChildren fleet.now sizes.old }
    ensures { Sizes fleet.now sizes.new }
{
    for node in (0..fleet.len()).rev() {
        let far = sizes[node];
        sizes[node] = far + sizes[node + far as usize];
    }
}

// Notes the number of each node's vehicle.
fn number_vehicles(fleet: &[u16], numbers: &mut [u8])
    requires { IsFleet fleet.now × (length numbers.old ≡ most_nodes) }
    ensures { Numbers fleet.now numbers.new }
{
    let mut number: u8 = 0;
    for (node, pair) in fleet.iter().enumerate() {
        if *pair < Pair::UNIT {
            number += 1;
        }
        numbers[node] = number;
    }
}

// Makes the tables.
pub fn index(fleet: &[u16], parents: &mut [u16], numbers: &mut [u8], sizes: &mut [u8])
    requires { IndexInput fleet.now parents.old numbers.old sizes.old }
    ensures { Indexed fleet.now parents.new numbers.new sizes.new }
{
    note_parents(fleet, parents);
    number_vehicles(fleet, numbers);
    note_last_children(fleet, parents, sizes);
    measure(fleet, sizes);
}

// The ancestor of the node, so many steps up.
pub fn climb(fleet: &[u16], parents: &[u16; Fleet::NODES], node: usize, steps: usize) -> usize
    requires { Parents fleet.now parents.now × (node < length fleet.now) × (steps ≤ depthAt fleet.now node) }
    ensures { Up fleet.now result steps node }
{
    let mut here = node;
    for _step in 0..steps {
        here = parents[here] as usize;
    }
    here
}

// Fewer nodes below a node are as quickly gone through from child to child.
const MANY: usize = 32;

// Whether the nodes below the node are many and look like children of it, most of them: the middle one and the last are hardly deeper. To look at
// them all is then quicker than to go from child to child.
pub fn looks_flat(fleet: &[u16], sizes: &[u8; Fleet::NODES], node: usize) -> bool
    requires { IsFleet fleet.now × Sizes fleet.now sizes.now × (node < length fleet.now) }
    ensures { Tells result (LooksFlat fleet.now sizes.now node) }
{
    let size = sizes[node] as usize;
    let deeper = fleet[node] + 2 * Pair::UNIT;
    size >= MANY && fleet[node + size / 2] < deeper && fleet[node + size] < deeper
}

// How many children of `node` are the pair. All nodes below it are looked at, which a processor does many at a time.
fn count_children(fleet: &[u16], sizes: &[u8; Fleet::NODES], node: usize, pair: u16) -> usize
    requires { ChildInput fleet.now sizes.now node pair }
    ensures { result ≡ children fleet.now node (pair % 1000) }
{
    let end = node + 1 + sizes[node] as usize;
    // Faster in a u16 than by filter(..).count(), in a usize: more nodes at a time (measured).
    let mut count: u16 = 0;
    for below in &fleet[node + 1..end] {
        if *below == pair {
            count += 1;
        }
    }
    count as usize
}

// Whether more children of `node` than so many are the pair. Where it is quicker it goes from child to child, as far as need be.
pub fn has_more_children(
    fleet: &[u16],
    sizes: &[u8; Fleet::NODES],
    node: usize,
    pair: u16,
    than: usize,
) -> bool
    requires { ChildInput fleet.now sizes.now node pair }
    ensures { Tells result (than < children fleet.now node (pair % 1000)) }
{
    if looks_flat(fleet, sizes, node) {
        return count_children(fleet, sizes, node, pair) > than;
    }
    let end = node + 1 + sizes[node] as usize;
    let mut count = 0;
    let mut next = node + 1;
    while next < end {
        if fleet[next] == pair {
            count += 1;
            if count > than {
                return true;
            }
        }
        next += 1 + sizes[next] as usize;
    }
    false
}
