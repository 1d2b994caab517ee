// Noting what may follow a pattern, for one vehicle after another: the pairs of the children of a node, and those that may come at a place of the
// pattern's last node. A pair is counted once for each vehicle.
#![tactic(auto)]

ghost use Rattle.std.specs.Prelude.{◌≡◌, ◌<◌, length};
ghost use Rattle.terms.specs.Fleet.{IsFleet};
ghost use Rattle.index.specs.Index.{Sizes};
ghost use Rattle.noting.specs.Noting.{pair_limit, Room, AllNoted, ChildPair, ChildrenToNote, LimitAt, PassesAt, PlaceNoted, LimitsToNote};

use fleet::{Fleet, Pair};
use index;

// The vehicle has the pair: it is counted once.
pub fn note(pair: u16, vehicle: u8, counts: &mut [u8], last: &mut [u8])
    requires { Room (λ x. x ≡ pair) vehicle counts.old last.old }
    ensures { AllNoted (λ x. x ≡ pair) vehicle counts.old last.old counts.new last.new }
{
    let x = pair as usize;
    if last[x] != vehicle {
        last[x] = vehicle;
        counts[x] += 1;
    }
}

// Notes the pairs of the children of d, each less `above`, that are below the limit.
fn note_children(
    fleet: &[u16],
    sizes: &[u8; Fleet::NODES],
    d: usize,
    above: u16,
    limit: u16,
    vehicle: u8,
    counts: &mut [u8],
    last: &mut [u8],
)
    requires { ChildrenToNote (λ x. x < limit) fleet.now sizes.now d above vehicle counts.old last.old }
    ensures { AllNoted (ChildPair (λ x. x < limit) fleet.now d above) vehicle counts.old last.old counts.new last.new }
{
    let end = d + 1 + sizes[d] as usize;
    let mut c = d + 1;
    while c < end {
        let pair = fleet[c] - above;
        if pair < limit {
            note(pair, vehicle, counts, last);
        }
        c = c + 1 + sizes[c] as usize;
    }
}

// One more than the heaviest pair to be noted of the children of d: where the pattern's node has children that are `heaviest`, d must have more.
fn limit_at(fleet: &[u16], sizes: &[u8; Fleet::NODES], d: usize, heaviest: u16, equal: u8) -> u16
    requires { IsFleet fleet.now × Sizes fleet.now sizes.now × (d < length fleet.now) × (heaviest < pair_limit) }
    ensures { LimitAt fleet.now d heaviest equal result }
{
    if equal > 0 {
        let pair = (fleet[d] / Pair::UNIT + 1) * Pair::UNIT + heaviest % Pair::UNIT;
        if !index::has_more_children(fleet, sizes, d, pair, equal as usize) {
            return heaviest;
        }
    }
    heaviest + 1
}

// Notes what may follow the pattern at a place of its last node: level by level, up to the root or to an ancestor that was seen before. Below a
// leaf nothing follows: it is passed over if its parent was seen.
pub fn note_place(
    fleet: &[u16],
    parents: &[u16; Fleet::NODES],
    sizes: &[u8; Fleet::NODES],
    heaviest: &[u16; 16],
    equal: &[u8; 16],
    place: usize,
    depth: usize,
    vehicle: u8,
    seen: &mut [usize; 16],
    counts: &mut [u8],
    last: &mut [u8],
)
    requires { LimitsToNote fleet.now parents.now sizes.now heaviest.now equal.now place depth vehicle seen.old counts.old last.old }
    ensures { PlaceNoted (PassesAt fleet.now heaviest.now equal.now) fleet.now place depth vehicle seen.old counts.old last.old seen.new counts.new last.new }
{
    if depth > 0 && sizes[place] == 0 && seen[depth - 1] == parents[place] as usize {
        return;
    }
    let above = (fleet[place] / Pair::UNIT - depth as u16) * Pair::UNIT;
    let mut d = place;
    let mut level = depth;
    while seen[level] != d {
        seen[level] = d;
        let limit = limit_at(fleet, sizes, d, heaviest[level], equal[level]);
        note_children(fleet, sizes, d, above, limit, vehicle, counts, last);
        if level == 0 {
            return;
        }
        level -= 1;
        d = parents[d] as usize;
    }
}
