// Whether a larger tree is frequent too: some supertree of one more node (000: the blanket of a pattern), a leaf below any node or a new root, in as
// many vehicles as is asked. A leaf below the rightmost branch, and a new root, are counted at the places of the last node; for a leaf below
// another node the pattern is turned, so that the node is on the branch.
#![tactic(auto)]

ghost use Rattle.std.specs.Prelude.{◌⊎◌, suc, ◌≤◌, ◌<◌, take};
ghost use Rattle.terms.specs.Tells.{Tells};
ghost use Rattle.occurrence.specs.Support.{whole_support};
ghost use Rattle.supertrees.specs.Supertree.{LargerReaches};
ghost use Rattle.new_root.specs.NewRoot.{RootReaches};
ghost use Rattle.additions.specs.Additions.{LeafReaches};
ghost use Rattle.matching.specs.Limits.{most_nodes_of_a_pattern};
ghost use Rattle.blanket.specs.Blanket.{ReachesInput, EqualLeaves, LeafTold, OthersTold};

use additions;
use fleet::{Fleet, Pair};
use matching::PATTERN_NODES;
use new_root;
use turned_places::list_places;
use turning;

// The pattern as it stands: whether it reaches the number with a leaf more at its branch, or with a new root.
fn first_reaches(
    nodes: [u16; PATTERN_NODES],
    len: usize,
    need: usize,
    fleet: &[u16],
    parents: &[u16; Fleet::NODES],
    numbers: &[u8; Fleet::NODES],
    sizes: &[u8; Fleet::NODES],
    places: &[u16],
    lens: &[usize; PATTERN_NODES],
) -> bool
    requires { ReachesInput fleet.now nodes len need parents.now numbers.now sizes.now places.now lens.now }
    ensures { Tells result (LeafReaches fleet.now need (take len nodes) ⊎ RootReaches fleet.now need (take len nodes)) }
{
    let mut list = [0u16; Fleet::NODES];
    let unmoved = len - 1;
    let count = list_places(
        nodes, unmoved, len, fleet, parents, sizes, places, lens, &mut list,
    );
    let pattern = &nodes[..len];
    let found = &list[..count];
    if additions::leaf_reaches(pattern, need, fleet, parents, numbers, sizes, found) {
        return true;
    }
    new_root::root_reaches(pattern, need, fleet, parents, numbers, found)
}

// The pattern turned so that the node, if it is a leaf, stands last: whether it reaches the number with a leaf more at its branch.
fn turned_reaches(
    nodes: [u16; PATTERN_NODES],
    len: usize,
    leaf: usize,
    need: usize,
    fleet: &[u16],
    parents: &[u16; Fleet::NODES],
    numbers: &[u8; Fleet::NODES],
    sizes: &[u8; Fleet::NODES],
    places: &[u16],
    lens: &[usize; PATTERN_NODES],
) -> bool
    requires { ReachesInput fleet.now nodes len need parents.now numbers.now sizes.now places.now lens.now × (suc leaf < len) }
    ensures { LeafTold fleet.now need (take len nodes) leaf result }
{
    if nodes[leaf] / Pair::UNIT < nodes[leaf + 1] / Pair::UNIT {
        return false;
    }
    let mut turned = nodes;
    let unmoved = turning::turn(&mut turned[..len], leaf);
    let mut list = [0u16; Fleet::NODES];
    let count = list_places(
        turned, unmoved, len, fleet, parents, sizes, places, lens, &mut list,
    );
    additions::leaf_reaches(
        &turned[..len],
        need,
        fleet,
        parents,
        numbers,
        sizes,
        &list[..count],
    )
}

// Whether the node and the one behind it are equal leaves, and that is not the last node: turned to the end, each gives the same tree.
fn equal_leaves(nodes: [u16; PATTERN_NODES], len: usize, leaf: usize) -> bool
    requires { (len ≤ most_nodes_of_a_pattern) × (leaf < len) }
    ensures { Tells result (EqualLeaves nodes len leaf) }
{
    leaf + 2 < len
        && nodes[leaf] == nodes[leaf + 1]
        && nodes[leaf + 2] / Pair::UNIT <= nodes[leaf] / Pair::UNIT
}

// Whether it is so for some leaf other than the last node. Of equal leaves in a row one is turned.
fn others_reach(
    nodes: [u16; PATTERN_NODES],
    len: usize,
    need: usize,
    fleet: &[u16],
    parents: &[u16; Fleet::NODES],
    numbers: &[u8; Fleet::NODES],
    sizes: &[u8; Fleet::NODES],
    places: &[u16],
    lens: &[usize; PATTERN_NODES],
) -> bool
    requires { ReachesInput fleet.now nodes len need parents.now numbers.now sizes.now places.now lens.now }
    ensures { OthersTold fleet.now need (take len nodes) result }
{
    for leaf in (0..len - 1).rev() {
        if equal_leaves(nodes, len, leaf) {
            continue;
        }
        if turned_reaches(
            nodes, len, leaf, need, fleet, parents, numbers, sizes, places, lens,
        ) {
            return true;
        }
    }
    false
}

// Whether some supertree of one more node is held by at least `need` vehicles.
pub fn reaches(
    nodes: [u16; PATTERN_NODES],
    len: usize,
    need: usize,
    fleet: &[u16],
    parents: &[u16; Fleet::NODES],
    numbers: &[u8; Fleet::NODES],
    sizes: &[u8; Fleet::NODES],
    places: &[u16],
    lens: &[usize; PATTERN_NODES],
) -> bool
    requires { ReachesInput fleet.now nodes len need parents.now numbers.now sizes.now places.now lens.now }
    ensures { Tells result (LargerReaches (whole_support fleet.now) need (take len nodes)) }
{
    if first_reaches(
        nodes, len, need, fleet, parents, numbers, sizes, places, lens,
    ) {
        return true;
    }
    others_reach(
        nodes, len, need, fleet, parents, numbers, sizes, places, lens,
    )
}
