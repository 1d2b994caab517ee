// Noting what a place of a pattern's last node has left over: along the branch, the pairs of children of which it has more than the pattern's node.
// Crate noting does the same for those pairs alone that make a form; here all count.
#![tactic(auto)]

ghost use Rattle.std.specs.Prelude.{◌%◌, ◌<◌};
ghost use Rattle.terms.specs.Tells.{Tells};
ghost use Rattle.rightmost.specs.Ends.{children};
ghost use Rattle.index.specs.Index.{ChildInput};
ghost use Rattle.noting.specs.Noting.{AllNoted, ChildPair, ChildrenToNote, PlaceNoted};
ghost use Rattle.leftover.specs.Leftover.{Leftover, OwnRoom, LeftoversToNote, Most};

use fleet::{Fleet, Pair};
use index;
use noting::note;

// Whether more children of d are the pair than so many; one is.
fn has_leftover(fleet: &[u16], sizes: &[u8; Fleet::NODES], d: usize, pair: u16, own: u8) -> bool
    requires { ChildInput fleet.now sizes.now d pair × (0 < children fleet.now d (pair % 1000)) }
    ensures { Tells result (own < children fleet.now d (pair % 1000)) }
{
    own == 0 || index::has_more_children(fleet, sizes, d, pair, own as usize)
}

// Notes the pairs of the children of d, each less `above`, that are left over: of which d has more than `own` tells. One that was noted for the
// vehicle is not looked at again. The answer is the largest count, which was `most` before.
fn note_children(
    fleet: &[u16],
    sizes: &[u8; Fleet::NODES],
    own: &[u8],
    d: usize,
    above: u16,
    vehicle: u8,
    counts: &mut [u8],
    last: &mut [u8],
    most: u8,
) -> u8
    requires { ChildrenToNote (Leftover fleet.now own.now d) fleet.now sizes.now d above vehicle counts.old last.old × OwnRoom fleet.now own.now last.old d above × Most counts.old most }
    ensures all_noted { AllNoted (ChildPair (Leftover fleet.now own.now d) fleet.now d above) vehicle counts.old last.old counts.new last.new }
    ensures most { Most counts.new result }
{
    let end = d + 1 + sizes[d] as usize;
    let mut largest = most;
    let mut c = d + 1;
    while c < end {
        let child = fleet[c];
        let pair = child - above;
        let x = pair as usize;
        if last[x] != vehicle && has_leftover(fleet, sizes, d, child, own[x]) {
            note(pair, vehicle, counts, last);
            largest = largest.max(counts[x]);
        }
        c = c + 1 + sizes[c] as usize;
    }
    largest
}

// Notes what is left over at a place of the pattern's last node, whose depth in the pattern is `depth`: level by level, up to the root or to an
// ancestor that was seen before. A leaf has nothing left over: it is passed over if its parent was seen. The answer is the largest count.
// Not one function with noting's, which walks up so too: what is noted at a level would be a closure that changes the tables, and a contract cannot
// say what such a closure left in them; a trait for the two would be longer than the walk.
pub fn note_place(
    fleet: &[u16],
    parents: &[u16; Fleet::NODES],
    sizes: &[u8; Fleet::NODES],
    own: &[u8],
    place: usize,
    depth: usize,
    vehicle: u8,
    seen: &mut [usize; 16],
    counts: &mut [u8],
    last: &mut [u8],
    most: u8,
) -> u8
    requires { LeftoversToNote fleet.now parents.now sizes.now own.now place depth vehicle seen.old counts.old last.old × Most counts.old most }
    ensures place_noted { PlaceNoted (λ level. Leftover fleet.now own.now) fleet.now place depth vehicle seen.old counts.old last.old seen.new counts.new last.new }
    ensures most { Most counts.new result }
{
    if depth > 0 && sizes[place] == 0 && seen[depth - 1] == parents[place] as usize {
        return most;
    }
    let above = (fleet[place] / Pair::UNIT - depth as u16) * Pair::UNIT;
    let mut largest = most;
    let mut d = place;
    let mut level = depth;
    while seen[level] != d {
        seen[level] = d;
        largest = note_children(fleet, sizes, own, d, above, vehicle, counts, last, largest);
        if level == 0 {
            return largest;
        }
        level -= 1;
        d = parents[d] as usize;
    }
    largest
}
