// The tables of a pattern, made and kept: from level to level, and from nothing.
ghost use Rattle.std.specs.Prelude.{◌≡◌, Bool, List, ℕ, suc, length};
ghost use Rattle.expansion.specs.Levels.{tables_if, count_room, Remembers};
ghost use Rattle.expansion.specs.Making.{ReachInput, MakeInput};

use crate::levels;
use fleet::Fleet;
use index;
use matching::PATTERN_NODES;

// The search comes to the first `len` pairs: their places are listed, and no counts of them are known. The levels below stay.
pub fn reach(
    nodes: [u16; PATTERN_NODES],
    len: usize,
    fleet: &[u16],
    parents: &[u16; Fleet::NODES],
    sizes: &[u8; Fleet::NODES],
    places: &mut [u16],
    lens: &mut [usize; PATTERN_NODES],
    known: &mut [bool; PATTERN_NODES],
)
    requires { ReachInput fleet.now nodes len parents.now sizes.now places.old lens.old known.old }
    ensures { (kept : Bool) (numbers counts : List ℕ) → Remembers fleet.now nodes len (tables_if kept parents.now numbers sizes.now places.old lens.old counts known.old) → Remembers fleet.now nodes (suc len) (tables_if kept parents.now numbers sizes.now places.new lens.new counts known.new) }
{
    known[len] = false;
    if len == 0 {
        return;
    }
    let before = len - 1;
    let count = lens[before];
    lens[len] = levels::enter(nodes, len, fleet, parents, sizes, places, count);
}

// Makes the tables of a form of `len` pairs, or of none: those of the fleet, and the places of all its beginnings. No counts are known; what the
// counts' table holds does not matter.
pub fn make(
    nodes: [u16; PATTERN_NODES],
    len: usize,
    fleet: &[u16],
    parents: &mut [u16; Fleet::NODES],
    numbers: &mut [u8; Fleet::NODES],
    sizes: &mut [u8; Fleet::NODES],
    places: &mut [u16],
    lens: &mut [usize; PATTERN_NODES],
    known: &mut [bool; PATTERN_NODES],
)
    requires { MakeInput fleet.now nodes len parents.old numbers.old sizes.old places.old lens.old known.old }
    ensures { (kept : Bool) (counts : List ℕ) → length counts ≡ count_room kept → Remembers fleet.now nodes len (tables_if kept parents.new numbers.new sizes.new places.new lens.new counts known.new) }
{
    index::index(fleet, parents, numbers, sizes);
    for level in 0..len {
        reach(nodes, level, fleet, parents, sizes, places, lens, known);
    }
}
