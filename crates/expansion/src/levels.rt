// The tables of a pattern, level by level: level k is that of its first k pairs. The places of a level are made when the search comes to a
// longer pattern, its counts when they are first asked for; both stay while the search goes on with the beginning. A search for one form alone
// seldom asks twice: it keeps no counts, and needs room for those of one level.
ghost use Rattle.std.specs.Prelude.{◌≡◌, suc, ◌≤◌, take};
ghost use Rattle.register.specs.Register.{HoldersIfLent};
ghost use Rattle.matching.specs.Limits.{most_nodes_of_a_pattern};
ghost use Rattle.counts.specs.Gathering.{Gathered};
ghost use Rattle.scan.specs.Scan.{ExtensionIs};
ghost use Rattle.expansion.specs.Levels.{tables_if, slot, Remembers, EnterInput, Entered, CountLevelInput, LevelInput};

use counts;
use fleet::{Fleet, Pair};
use labels;
use matching::PATTERN_NODES;
use places;
use root_places;
use scan::Extension;

const UNIT: usize = Pair::UNIT as usize;

const HALF: usize = UNIT / 2;

// The entries of the places of all levels, and of their counts where they are kept: of level k, (k + 2) · UNIT.
pub const PLACES: usize = PATTERN_NODES * Fleet::NODES;

pub const COUNTS: usize = PATTERN_NODES * (PATTERN_NODES + 3) * HALF;

// The entries of the counts of one level.
pub const LEVEL: usize = (PATTERN_NODES + 1) * UNIT;

// Makes the places of level `len`, a form's, from those of the level before, `count` of them; the answer is how many they are.
pub fn enter(
    nodes: [u16; PATTERN_NODES],
    len: usize,
    fleet: &[u16],
    parents: &[u16; Fleet::NODES],
    sizes: &[u8; Fleet::NODES],
    places: &mut [u16],
    count: usize,
) -> usize
    requires { EnterInput fleet.now nodes len parents.now sizes.now places.old count }
    ensures { Entered fleet.now nodes len places.old places.new result }
{
    let from = len * Fleet::NODES;
    let to = from + Fleet::NODES;
    if len == 1 {
        return root_places::place_root(nodes[0], fleet, &mut places[from..to]);
    }
    let before = len - 1;
    let first = before * Fleet::NODES;
    let end = first + count;
    let last = nodes[before];
    let mut old = [0u16; Fleet::NODES];
    tree::copy(&places[first..end], &mut old);
    places::place_last(
        &nodes[..before],
        last,
        fleet,
        parents,
        sizes,
        &old[..count],
        &mut places[from..to],
    )
}

// Makes the counts of level `len`, whose places are `count` many. `holders`: the sets of the fleet's label register, or none.
fn count_level(
    nodes: [u16; PATTERN_NODES],
    len: usize,
    fleet: &[u16],
    holders: &[u64],
    parents: &[u16; Fleet::NODES],
    numbers: &[u8; Fleet::NODES],
    sizes: &[u8; Fleet::NODES],
    places: &[u16],
    count: usize,
    counts: &mut [u8],
)
    requires { HoldersIfLent fleet.now holders.now × CountLevelInput fleet.now nodes len parents.now numbers.now sizes.now places.now count counts.old }
    ensures { Gathered (take len nodes) fleet.now counts.old counts.new }
{
    if len == 0 {
        labels::gather(fleet, holders, numbers, counts);
        return;
    }
    let first = len * Fleet::NODES;
    let end = first + count;
    counts::gather(
        &nodes[..len],
        fleet,
        parents,
        numbers,
        sizes,
        &places[first..end],
        counts,
    );
}

// Where in the table the counts of level `len` begin.
fn slot_of(len: usize, kept: bool) -> usize
    requires { len ≤ most_nodes_of_a_pattern }
    ensures { result ≡ slot kept len }
{
    if kept {
        return len * (len + 3) * HALF;
    }
    0
}

// The least pair above `low` with which the beginning of `len` pairs is a frequent form. Its counts are made where they are not known.
pub fn extend(
    nodes: [u16; PATTERN_NODES],
    len: usize,
    low: u16,
    fleet: &[u16],
    holders: &[u64],
    threshold: usize,
    parents: &[u16; Fleet::NODES],
    numbers: &[u8; Fleet::NODES],
    sizes: &[u8; Fleet::NODES],
    places: &[u16],
    lens: &[usize; PATTERN_NODES],
    counts: &mut [u8],
    known: &mut [bool; PATTERN_NODES],
    kept: bool,
) -> Option<Extension>
    requires { HoldersIfLent fleet.now holders.now × LevelInput fleet.now nodes len threshold (tables_if kept parents.now numbers.now sizes.now places.now lens.now counts.old known.old) }
    ensures extension_is { ExtensionIs fleet.now threshold (take len nodes) low result }
    ensures remembers { Remembers fleet.now nodes (suc len) (tables_if kept parents.now numbers.now sizes.now places.now lens.now counts.new known.new) }
{
    let at = slot_of(len, kept);
    let to = at + (len + 2) * UNIT;
    if !kept || !known[len] {
        count_level(
            nodes,
            len,
            fleet,
            holders,
            parents,
            numbers,
            sizes,
            places,
            lens[len],
            &mut counts[at..to],
        );
        known[len] = true;
    }
    scan::scan(nodes, len, low, fleet, threshold, &counts[at..to])
}
