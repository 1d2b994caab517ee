// Trees of one more node, a leaf below the rightmost branch of a pattern: whether one of them is held by enough vehicles. It is counted at the places
// of the pattern's last node; no larger tree is matched (`leftover_child_claim`, crate rightmost), so it may have 17 nodes.
#![tactic(auto)]

ghost use Rattle.std.specs.Prelude.{◌≤◌};
ghost use Rattle.terms.specs.Tells.{Tells};
ghost use Rattle.rightmost.specs.Counts.{top_of};
ghost use Rattle.branch.specs.Branch.{PatternInput};
ghost use Rattle.additions.specs.Additions.{LeafReaches, LeafInput, Own, OwnNone, LeavesToNote};

use branch;
use counts;
use counts::{MOST, SHALLOW};
use fleet::{Fleet, Pair};
use leftover;

// Counts the children of the branch's nodes by their pairs. A node is a child of the branch if its parent's depth has no later node.
fn count_own(pattern: &[u16], own: &mut [u8])
    requires { PatternInput pattern.now × OwnNone pattern.now own.old }
    ensures { Own pattern.now own.new }
{
    let branch = branch::branch_of(pattern);
    let deepest = pattern[pattern.len() - 1] / Pair::UNIT;
    for i in 1..pattern.len() {
        let pair = pattern[i];
        let depth = pair / Pair::UNIT;
        if depth <= deepest + 1 && branch[depth as usize - 1] < i {
            own[pair as usize] += 1;
        }
    }
}

// Notes what is left over at all places of the pattern's last node, until some pair is counted often enough: then a tree of one more node is held so
// often.
fn note_places(
    pattern: &[u16],
    need: usize,
    fleet: &[u16],
    parents: &[u16; Fleet::NODES],
    numbers: &[u8; Fleet::NODES],
    sizes: &[u8; Fleet::NODES],
    places: &[u16],
    own: &[u8],
    counts: &mut [u8],
    last: &mut [u8],
) -> bool
    requires { LeavesToNote pattern.now fleet.now parents.now numbers.now sizes.now places.now own.now counts.old last.old need }
    ensures { Tells result (LeafReaches fleet.now need pattern.now) }
{
    let mut seen = [Fleet::NODES; 16];
    let depth = (pattern[pattern.len() - 1] / Pair::UNIT) as usize;
    let mut most: u8 = 0;
    for &place in places {
        let place = place as usize;
        most = leftover::note_place(
            fleet,
            parents,
            sizes,
            own,
            place,
            depth,
            numbers[place],
            &mut seen,
            counts,
            last,
            most,
        );
        if most as usize >= need {
            return true;
        }
    }
    false
}

// Whether the pattern with a leaf more, below some node of its rightmost branch, is held by at least `need` vehicles: by tables of so many entries.
fn leaf_reaches_by<const SIZE: usize>(
    pattern: &[u16],
    need: usize,
    fleet: &[u16],
    parents: &[u16; Fleet::NODES],
    numbers: &[u8; Fleet::NODES],
    sizes: &[u8; Fleet::NODES],
    places: &[u16],
) -> bool
    requires { LeafInput pattern.now fleet.now parents.now numbers.now sizes.now places.now need × (top_of pattern.now ≤ SIZE) × (SIZE ≤ MOST) }
    ensures { Tells result (LeafReaches fleet.now need pattern.now) }
{
    let end = counts::top(pattern);
    let mut own = [0u8; SIZE];
    let mut counts = [0u8; SIZE];
    let mut last = [0u8; SIZE];
    count_own(pattern, &mut own);
    note_places(
        pattern,
        need,
        fleet,
        parents,
        numbers,
        sizes,
        places,
        &own,
        &mut counts[..end],
        &mut last,
    )
}

// Whether the pattern with a leaf more, below some node of its rightmost branch, is held by at least `need` vehicles. Below a shallow pattern, as most
// are, few pairs may come, and little is cleared.
pub fn leaf_reaches(
    pattern: &[u16],
    need: usize,
    fleet: &[u16],
    parents: &[u16; Fleet::NODES],
    numbers: &[u8; Fleet::NODES],
    sizes: &[u8; Fleet::NODES],
    places: &[u16],
) -> bool
    requires { LeafInput pattern.now fleet.now parents.now numbers.now sizes.now places.now need }
    ensures { Tells result (LeafReaches fleet.now need pattern.now) }
{
    if counts::top(pattern) <= SHALLOW {
        leaf_reaches_by::<SHALLOW>(pattern, need, fleet, parents, numbers, sizes, places)
    } else {
        leaf_reaches_by::<MOST>(pattern, need, fleet, parents, numbers, sizes, places)
    }
}
