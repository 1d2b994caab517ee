// The places of the last node of a pattern of more than one: the nodes of the fleet where some placing puts it, listed in order.
#![tactic(auto)]

ghost use Rattle.std.specs.Prelude.{[], ◌∷◌, ◌++◌, ◌≤◌, ◌%◌, length, take};
ghost use Rattle.rightmost.specs.PlaceList.{Places};
ghost use Rattle.seats.specs.Seats.{KidsInput};
ghost use Rattle.places.specs.Placing.{LongerInput};
ghost use Rattle.places.specs.PlaceSteps.{ChildrenInput, ChildrenPut, EqualsInput, KidsPut, BelowInput};

use branch;
use fleet::{Fleet, Pair};
use groups;
use index;
use seats;

// Puts the children of the node that are the pair behind the first `len` of `list`; the answer is where they end. All nodes below it are looked
// at.
fn scan_children(
    fleet: &[u16],
    sizes: &[u8; Fleet::NODES],
    node: usize,
    pair: u16,
    list: &mut [u16],
    len: usize,
) -> usize
    requires { ChildrenInput fleet.now sizes.now node pair list.old len }
    ensures { ChildrenPut fleet.now node (pair % 1000) list.old len list.new result }
{
    // No twin of `index::count_children`, which counts the same nodes: where nothing is written many are looked at at a time.
    let stop = node + 1 + sizes[node] as usize;
    let mut end = len;
    for below in node + 1..stop {
        if fleet[below] == pair {
            list[end] = below as u16;
            end += 1;
        }
    }
    end
}

// The same, from child to child where that is quicker.
fn put_children(
    fleet: &[u16],
    sizes: &[u8; Fleet::NODES],
    node: usize,
    pair: u16,
    list: &mut [u16],
    len: usize,
) -> usize
    requires { ChildrenInput fleet.now sizes.now node pair list.old len }
    ensures { ChildrenPut fleet.now node (pair % 1000) list.old len list.new result }
{
    if index::looks_flat(fleet, sizes, node) {
        return scan_children(fleet, sizes, node, pair, list, len);
    }
    let stop = node + 1 + sizes[node] as usize;
    let mut end = len;
    let mut child = node + 1;
    while child < stop {
        if fleet[child] == pair {
            list[end] = child as u16;
            end += 1;
        }
        child += 1 + sizes[child] as usize;
    }
    end
}

// Puts the children of `place` where x, a new child of `node`, can be behind the first `len` of `list`; the answer is where they end.
// They are those with the label of x, if they are more than the children of `node` that are like x: any of them, if those are leaves; else
// those that leave places for the others.
fn put_kids(
    before: &[u16],
    x: u16,
    node: usize,
    equal: usize,
    leaves: bool,
    fleet: &[u16],
    parents: &[u16; Fleet::NODES],
    sizes: &[u8; Fleet::NODES],
    place: usize,
    list: &mut [u16],
    len: usize,
) -> usize
    requires { KidsInput before.now x node fleet.now parents.now sizes.now place × EqualsInput before.now x node equal leaves fleet.now place list.old len }
    ensures { KidsPut before.now x node fleet.now place list.old len list.new result }
{
    let pair = (fleet[place] / Pair::UNIT + 1) * Pair::UNIT + x % Pair::UNIT;
    let end = put_children(fleet, sizes, place, pair, list, len);
    if end - len <= equal {
        return len;
    }
    if leaves {
        return end;
    }
    seats::keep_beside(
        before, x, node, fleet, parents, sizes, place, list, len, end,
    )
}

// Those of the pattern that goes on with x, a child of its last node, from those of the pattern, `old`: the children of these that have x's
// label. (An old place has the last node's label.) They are put at the front of `new`; the answer is how many they are.
fn place_below(
    before: &[u16],
    x: u16,
    fleet: &[u16],
    sizes: &[u8; Fleet::NODES],
    old: &[u16],
    new: &mut [u16],
) -> usize
    requires { BelowInput before.now x fleet.now sizes.now old.now new.old }
    ensures { Places (before.now ++ x ∷ []) fleet.now (take result new.new) × (result ≤ length fleet.now) }
{
    let step = x - before[before.len() - 1];
    let mut len = 0;
    for old_place in old {
        let place = *old_place as usize;
        let pair = fleet[place] + step;
        len = put_children(fleet, sizes, place, pair, new, len);
    }
    len
}

// The same where x comes beside a node of the branch. Where that is the last node, like x, the new places are those of the old ones that have a
// sibling to spare: the others of the pattern have places beside such a one already.
fn place_beside(
    before: &[u16],
    x: u16,
    fleet: &[u16],
    parents: &[u16; Fleet::NODES],
    sizes: &[u8; Fleet::NODES],
    old: &[u16],
    new: &mut [u16],
) -> usize
    requires { LongerInput before.now x fleet.now parents.now sizes.now old.now new.old }
    ensures { Places (before.now ++ x ∷ []) fleet.now (take result new.new) × (result ≤ length fleet.now) }
{
    let branch = branch::branch_of(before);
    let level = (x / Pair::UNIT) as usize - 1;
    let node = branch[level];
    let equal = branch::equal_children(before, node, x);
    let pair = before[before.len() - 1];
    if pair == x {
        return groups::keep_groups(equal, fleet, parents, sizes, old, new);
    }
    let leaves = branch::leaves_only(before, node, x);
    let steps = (pair / Pair::UNIT) as usize - level;
    let mut last = Fleet::NODES;
    let mut len = 0;
    for old_place in old {
        let place = index::climb(fleet, parents, *old_place as usize, steps);
        if place != last {
            last = place;
            len = put_kids(
                before, x, node, equal, leaves, fleet, parents, sizes, place, new, len,
            );
        }
    }
    len
}

// Those of the pattern that goes on with x, from those of the pattern, `old`. They are put at the front of `new`; the answer is how many they are.
pub fn place_last(
    before: &[u16],
    x: u16,
    fleet: &[u16],
    parents: &[u16; Fleet::NODES],
    sizes: &[u8; Fleet::NODES],
    old: &[u16],
    new: &mut [u16],
) -> usize
    requires { LongerInput before.now x fleet.now parents.now sizes.now old.now new.old }
    ensures { Places (before.now ++ x ∷ []) fleet.now (take result new.new) × (result ≤ length fleet.now) }
{
    if before[before.len() - 1] / Pair::UNIT < x / Pair::UNIT {
        return place_below(before, x, fleet, sizes, old, new);
    }
    place_beside(before, x, fleet, parents, sizes, old, new)
}
