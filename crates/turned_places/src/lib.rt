// The places of a pattern's last node, made from those of one of its beginnings: of a pattern that is longer than the tables' levels, or turned, so that
// they have only its beginning.
#![tactic(auto)]

ghost use Rattle.std.specs.Prelude.{◌≡◌, length};
ghost use Rattle.terms.specs.Fleet.{most_nodes};
ghost use Rattle.turned_places.specs.Making.{OnwardInput, ListInput, Made};

use fleet::Fleet;
use matching::PATTERN_NODES;
use places;
use root_places;
use tree;

// From the places of the first `from` pairs, which stand in the list, `count` of them, to those of the first `len`; the answer is how many these are.
fn place_onward(
    nodes: [u16; PATTERN_NODES],
    from: usize,
    len: usize,
    fleet: &[u16],
    parents: &[u16; Fleet::NODES],
    sizes: &[u8; Fleet::NODES],
    list: &mut [u16],
    count: usize,
) -> usize
    requires { OnwardInput fleet.now nodes from len parents.now sizes.now list.old count }
    ensures { Made fleet.now nodes len list.new result }
{
    let mut old = [0u16; Fleet::NODES];
    let mut known = count;
    for k in from..len {
        let last = nodes[k];
        tree::copy(&list[..known], &mut old);
        known = places::place_last(
            &nodes[..k],
            last,
            fleet,
            parents,
            sizes,
            &old[..known],
            list,
        );
    }
    known
}

// Lists the places of the first `len` pairs. The tables have those of the first `unmoved`, fewer, or none where there is but one pair. The answer is how
// many they are.
pub fn list_places(
    nodes: [u16; PATTERN_NODES],
    unmoved: usize,
    len: usize,
    fleet: &[u16],
    parents: &[u16; Fleet::NODES],
    sizes: &[u8; Fleet::NODES],
    places: &[u16],
    lens: &[usize; PATTERN_NODES],
    list: &mut [u16],
) -> usize
    requires { ListInput fleet.now nodes unmoved len parents.now sizes.now places.now lens.now × (length list.old ≡ most_nodes) }
    ensures { Made fleet.now nodes len list.new result }
{
    if unmoved == 0 {
        return root_places::place_root(nodes[0], fleet, list);
    }
    let count = lens[unmoved];
    let first = unmoved * Fleet::NODES;
    let end = first + count;
    tree::copy(&places[first..end], list);
    place_onward(nodes, unmoved, len, fleet, parents, sizes, list, count)
}
