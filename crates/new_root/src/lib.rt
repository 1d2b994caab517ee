// Whether a pattern with a new root above its own is frequent too: told by the nodes right above the places of its root.
#![tactic(auto)]

ghost use Rattle.terms.specs.Tells.{Tells};
ghost use Rattle.leftover.specs.Leftover.{Most};
ghost use Rattle.noting.specs.Noting.{AllNoted};
ghost use Rattle.new_root.specs.NewRoot.{LabelAbove, RootToNote, RootInput, RootReaches};

use fleet::{Fleet, Pair};
use index;
use noting::note;

// Labels are below this.
const UNIT: usize = Pair::UNIT as usize;

// Notes the label of the node right above the ancestor of a place, `depth` steps up, unless that is a vehicle's root. The answer is the largest
// count, which was `most` before.
fn note_above(
    fleet: &[u16],
    parents: &[u16; Fleet::NODES],
    place: usize,
    depth: usize,
    vehicle: u8,
    counts: &mut [u8],
    last: &mut [u8],
    most: u8,
) -> u8
    requires { RootToNote fleet.now parents.now place depth vehicle counts.old last.old × Most counts.old most }
    ensures all_noted { AllNoted (LabelAbove fleet.now depth place) vehicle counts.old last.old counts.new last.new }
    ensures most { Most counts.new result }
{
    if (fleet[place] / Pair::UNIT) as usize <= depth {
        return most;
    }
    let node = index::climb(fleet, parents, place, depth + 1);
    let label = fleet[node] % Pair::UNIT;
    note(label, vehicle, counts, last);
    most.max(counts[label as usize])
}

// Whether the pattern with some new root above it is held by at least `need` vehicles. For each label, the vehicles are counted in which a node of
// that label is right above a place of the pattern's root.
pub fn root_reaches(
    pattern: &[u16],
    need: usize,
    fleet: &[u16],
    parents: &[u16; Fleet::NODES],
    numbers: &[u8; Fleet::NODES],
    places: &[u16],
) -> bool
    requires { RootInput pattern.now need fleet.now parents.now numbers.now places.now }
    ensures { Tells result (RootReaches fleet.now need pattern.now) }
{
    let depth = (pattern[pattern.len() - 1] / Pair::UNIT) as usize;
    let mut counts = [0u8; UNIT];
    let mut last = [0u8; UNIT];
    let mut most = 0;
    for &place in places {
        let place = place as usize;
        most = note_above(
            fleet,
            parents,
            place,
            depth,
            numbers[place],
            &mut counts,
            &mut last,
            most,
        );
        if most as usize >= need {
            return true;
        }
    }
    false
}
