// Forms that need no test (000, section 3.3: pruning): those that go on from a beginning which can have a leaf more wherever it occurs, but not with
// that leaf.
#![tactic(auto)]

ghost use Rattle.std.specs.Prelude.{◌≡◌, IfSome, List, ℕ, ◌-◌, ◌≤◌};
ghost use Rattle.terms.specs.Tells.{Tells};
ghost use Rattle.matching.specs.Limits.{most_nodes_of_a_pattern};
ghost use Rattle.turned_places.specs.Making.{ListInput};
ghost use Rattle.pruning.specs.Pruning.{MatchedBeginning, Covers};

use fleet::Fleet;
use matched::matched_leaf;
use matching::PATTERN_NODES;
use turned_places::list_places;

// A beginning of a form, its first `len` pairs, and the pair of a leaf that the beginning can have more wherever it occurs.
#[derive(Clone, Copy)]
pub struct Matched {
    pub len: usize,
    pub pair: u16,
}

// What is known of the form `before`, if this form begins with that too; else nothing.
pub fn kept(
    matched: Option<Matched>,
    before: [u16; PATTERN_NODES],
    nodes: [u16; PATTERN_NODES],
    len: usize,
) -> Option<Matched>
    requires { len ≤ most_nodes_of_a_pattern }
    ensures { (fleet : List ℕ) (n : ℕ) → MatchedBeginning fleet before n matched → MatchedBeginning fleet nodes len result }
{
    let known = matched?;
    if known.len <= len && before[..known.len] == nodes[..known.len] {
        return matched;
    }
    None
}

// Whether a form that begins with the matched beginning goes on without its leaf.
pub fn covers(matched: Option<Matched>, nodes: [u16; PATTERN_NODES], len: usize) -> bool
    requires { len ≤ most_nodes_of_a_pattern }
    ensures { Tells result (Covers matched nodes len) }
{
    let Some(known) = matched else {
        return false;
    };
    !nodes[known.len.min(len)..len].contains(&known.pair)
}

// Looks for a leaf that the form can have more wherever it occurs.
pub fn find_matched(
    nodes: [u16; PATTERN_NODES],
    len: usize,
    fleet: &[u16],
    parents: &[u16; Fleet::NODES],
    sizes: &[u8; Fleet::NODES],
    places: &[u16],
    lens: &[usize; PATTERN_NODES],
) -> Option<Matched>
    requires { ListInput fleet.now nodes (len - 1) len parents.now sizes.now places.now lens.now }
    ensures { MatchedBeginning fleet.now nodes len result × IfSome result (λ found. found.len ≡ len) }
{
    let mut list = [0u16; Fleet::NODES];
    let unmoved = len - 1;
    let count = list_places(
        nodes, unmoved, len, fleet, parents, sizes, places, lens, &mut list,
    );
    let pair = matched_leaf(&nodes[..len], fleet, parents, sizes, &mut list[..count])?;
    Some(Matched { len, pair })
}
