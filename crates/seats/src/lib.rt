// Of the children of a place those are kept beside which the other children of the pattern find seats.
#![tactic(auto)]

ghost use Rattle.std.specs.Prelude.{◌≡◌, ℕ, ◌%◌, get_or, replicate};
ghost use Rattle.terms.specs.Tree.{IsParent};
ghost use Rattle.terms.specs.Tells.{Tells};
ghost use Rattle.matching.specs.Limits.{most_nodes_of_a_pattern};
ghost use Rattle.rightmost.specs.Ends.{InnerMatched};
ghost use Rattle.seats.specs.Seats.{KidsInput, RisingIn, KeptBehind, Beside};
ghost use Rattle.seats.specs.SeatSteps.{SeatInput, LeaveInput, Holds, StuckSeats, ChildFrom, BesideFrom};

use branch;
use fleet::{Fleet, Pair};
use index;
use matching;

// Gives the inner children of `node` that are the pair x, those with children, seats at children of `image`. `seats` is given empty.
fn seat(
    before: &[u16],
    x: u16,
    node: usize,
    tree: &[u16],
    sizes: &[u8],
    image: usize,
    seats: &mut [usize; matching::PATTERN_NODES],
)
    requires { SeatInput before.now x node tree.now sizes.now image × (seats.old ≡ replicate most_nodes_of_a_pattern 0) }
    ensures { InnerMatched before.now node (x % 1000) tree.now image seats.new }
{
    for child in node + 1..before.len() - 1 {
        if branch::inner(before, child, x) {
            let mut visited = [false; matching::PATTERN_NODES];
            matching::augment(before, node, child, tree, sizes, image, seats, &mut visited);
        }
    }
}

// Whether the child of `node` can leave its seat at a child of `image`: all who have seats find others beside that one.
fn can_leave(
    before: &[u16],
    node: usize,
    child: usize,
    tree: &[u16],
    sizes: &[u8],
    image: usize,
    seats: &[usize; matching::PATTERN_NODES],
) -> bool
    requires { LeaveInput before.now node tree.now sizes.now image seats.now × Holds before.now seats.now child }
    ensures { (label : ℕ) → InnerMatched before.now node label tree.now image seats.now → Tells result (Beside before.now node label tree.now image (get_or seats.now child 0)) }
{
    let mut visited = [false; matching::PATTERN_NODES];
    let mut moved = *seats;
    matching::augment(
        before,
        node,
        child,
        tree,
        sizes,
        image,
        &mut moved,
        &mut visited,
    )
}

// Empties the seats that can be left, each asked for while all others are as they were; the answer is whether one is left. Mostly none is: then
// no kid need be asked who has it.
fn leave(
    before: &[u16],
    node: usize,
    tree: &[u16],
    sizes: &[u8],
    image: usize,
    seats: &mut [usize; matching::PATTERN_NODES],
) -> bool
    requires { LeaveInput before.now node tree.now sizes.now image seats.old }
    ensures { (label : ℕ) → InnerMatched before.now node label tree.now image seats.old → StuckSeats before.now node label tree.now image seats.new result }
{
    let full = *seats;
    let mut stuck = false;
    for child in node + 1..before.len() {
        if full[child] != 0 {
            if can_leave(before, node, child, tree, sizes, image, &full) {
                seats[child] = 0;
            } else {
                stuck = true;
            }
        }
    }
    stuck
}

// Of the children of `image` that stand in the list from `len` to `end`, keeps those that the inner children of `node` that are x can sit
// beside; the answer is where they end. The tree begins at `start` in the fleet.
fn keep_in_tree(
    before: &[u16],
    x: u16,
    node: usize,
    tree: &[u16],
    sizes: &[u8],
    start: usize,
    image: usize,
    list: &mut [u16],
    len: usize,
    end: usize,
) -> usize
    requires { SeatInput before.now x node tree.now sizes.now image × RisingIn (ChildFrom tree.now image start) list.old len end }
    ensures { KeptBehind (BesideFrom before.now node (x % 1000) tree.now image start) list.old len end list.new result }
{
    let mut seats = [0usize; matching::PATTERN_NODES];
    seat(before, x, node, tree, sizes, image, &mut seats);
    if !leave(before, node, tree, sizes, image, &mut seats) {
        return end;
    }
    let visited = [false; matching::PATTERN_NODES];
    let mut kept = len;
    // An index: what is kept is written into the list that is read.
    for i in len..end {
        let kid = list[i];
        let other = matching::holder(&seats, &visited, kid as usize - start);
        if other == matching::NOBODY {
            list[kept] = kid;
            kept += 1;
        }
    }
    kept
}

// The same in the fleet. The matching works on the tree of one vehicle.
pub fn keep_beside(
    before: &[u16],
    x: u16,
    node: usize,
    fleet: &[u16],
    parents: &[u16; Fleet::NODES],
    sizes: &[u8],
    place: usize,
    list: &mut [u16],
    len: usize,
    end: usize,
) -> usize
    requires { KidsInput before.now x node fleet.now parents.now sizes.now place × RisingIn (IsParent fleet.now place) list.old len end }
    ensures { KeptBehind (Beside before.now node (x % 1000) fleet.now place) list.old len end list.new result }
{
    let depth = (fleet[place] / Pair::UNIT) as usize;
    let start = index::climb(fleet, parents, place, depth);
    let stop = start + 1 + sizes[start] as usize;
    let tree = &fleet[start..stop];
    let below = &sizes[start..stop];
    keep_in_tree(
        before,
        x,
        node,
        tree,
        below,
        start,
        place - start,
        list,
        len,
        end,
    )
}
