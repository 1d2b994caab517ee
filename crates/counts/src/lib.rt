// The supports of all forms that are a pattern and one pair more, in a table over the pairs.
#![tactic(auto)]

ghost use Rattle.std.specs.Prelude.{◌≡◌, ℕ, ◌≤◌, ◌<◌, length, get_or};
ghost use Rattle.rightmost.specs.Counts.{top_of};
ghost use Rattle.counts.specs.Gathering.{GatherInput, PlacesToNote, Gathered};

use branch;
use fleet::{Fleet, Pair};
use noting;

// Labels are below this.
const UNIT: usize = Pair::UNIT as usize;

// The pairs that may follow a pattern are below this, at most; and where its last node is no deeper than 2, as of most patterns.
pub const MOST: usize = (Pair::DEPTH as usize + 2) * UNIT;

pub const SHALLOW: usize = 4 * UNIT;

// The pairs that may follow a pattern are below this.
pub fn top(pattern: &[u16]) -> usize
    ensures { result ≡ top_of pattern.now }
{
    let Some(&last) = pattern.last() else {
        return 2 * UNIT;
    };
    let deepest = last / Pair::UNIT;
    (deepest as usize + 2) * UNIT
}

// Nothing is counted of the pairs before `end`.
pub fn clear(counts: &mut [u8], end: usize)
    requires { end ≤ length counts.old }
    ensures { (length counts.new ≡ length counts.old) × ((x : ℕ) → x < end → get_or counts.new x 0 ≡ 0) }
{
    counts[..end].fill(0);
}

// Notes what may follow the pattern at all places of its last node. Nothing is counted yet, and no vehicle was noted.
fn note_places(
    pattern: &[u16],
    fleet: &[u16],
    parents: &[u16; Fleet::NODES],
    numbers: &[u8; Fleet::NODES],
    sizes: &[u8; Fleet::NODES],
    places: &[u16],
    counts: &mut [u8],
    last: &mut [u8],
)
    requires { PlacesToNote pattern.now fleet.now parents.now numbers.now sizes.now places.now counts.old last.old }
    ensures { Gathered pattern.now fleet.now counts.old counts.new }
{
    let mut heaviest = [0u16; 16];
    let mut equal = [0u8; 16];
    branch::levels(pattern, &mut heaviest, &mut equal);
    let mut seen = [Fleet::NODES; 16];
    let depth = (pattern[pattern.len() - 1] / Pair::UNIT) as usize;
    for &place in places {
        let place = place as usize;
        noting::note_place(
            fleet,
            parents,
            sizes,
            &heaviest,
            &equal,
            place,
            depth,
            numbers[place],
            &mut seen,
            counts,
            last,
        );
    }
}

// The supports of the forms that are the pattern and one pair more, by a table of so many entries for the vehicles that were noted last.
fn gather_by<const SIZE: usize>(
    pattern: &[u16],
    fleet: &[u16],
    parents: &[u16; Fleet::NODES],
    numbers: &[u8; Fleet::NODES],
    sizes: &[u8; Fleet::NODES],
    places: &[u16],
    counts: &mut [u8],
)
    requires { GatherInput pattern.now fleet.now parents.now numbers.now sizes.now places.now counts.old × (top_of pattern.now ≤ SIZE) × (SIZE ≤ MOST) }
    ensures { Gathered pattern.now fleet.now counts.old counts.new }
{
    clear(counts, top(pattern));
    let mut last = [0u8; SIZE];
    note_places(
        pattern, fleet, parents, numbers, sizes, places, counts, &mut last,
    );
}

// The supports of the forms that are the pattern and one pair more. Below a shallow pattern, as most are, few pairs may come, and little is
// cleared.
pub fn gather(
    pattern: &[u16],
    fleet: &[u16],
    parents: &[u16; Fleet::NODES],
    numbers: &[u8; Fleet::NODES],
    sizes: &[u8; Fleet::NODES],
    places: &[u16],
    counts: &mut [u8],
)
    requires { GatherInput pattern.now fleet.now parents.now numbers.now sizes.now places.now counts.old }
    ensures { Gathered pattern.now fleet.now counts.old counts.new }
{
    if top(pattern) <= SHALLOW {
        gather_by::<SHALLOW>(pattern, fleet, parents, numbers, sizes, places, counts);
    } else {
        gather_by::<MOST>(pattern, fleet, parents, numbers, sizes, places, counts);
    }
}
