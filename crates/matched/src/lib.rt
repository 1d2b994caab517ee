// A leaf that a pattern can have more wherever it occurs (000: occurrence-matched). What the pattern goes on to without that leaf is not closed, nor, if
// it reaches the threshold, maximal (`matched_larger_claim`), so no such form need be tested.
#![tactic(auto)]

ghost use Rattle.terms.specs.Tells.{Tells};
ghost use Rattle.matched.specs.Matched.{LeftEverywhere, NodesToAsk, NodeToAsk, NodesToRise, Risen, PatternToAsk, MatchedBy};

use branch;
use fleet::{Fleet, Pair};
use index;

// Replaces the first `count` nodes by their parents, equal neighbours once; the answer is how many are left.
fn rise(fleet: &[u16], parents: &[u16; Fleet::NODES], nodes: &mut [u16], count: usize) -> usize
    requires { NodesToRise fleet.now parents.now nodes.old count }
    ensures { Risen fleet.now nodes.old count nodes.new result }
{
    let mut before = None;
    let mut kept = 0;
    for next in 0..count {
        let above = parents[nodes[next] as usize];
        if before != Some(above) {
            nodes[kept] = above;
            kept += 1;
            before = Some(above);
        }
    }
    kept
}

// Whether each of the nodes has more children of the label than `own`.
fn left_everywhere(
    fleet: &[u16],
    sizes: &[u8; Fleet::NODES],
    nodes: &[u16],
    label: u16,
    own: usize,
) -> bool
    requires { NodesToAsk fleet.now sizes.now nodes.now label }
    ensures { Tells result (LeftEverywhere fleet.now nodes.now label own) }
{
    for node in nodes {
        let d = *node as usize;
        let pair = (fleet[d] / Pair::UNIT + 1) * Pair::UNIT + label;
        if !index::has_more_children(fleet, sizes, d, pair, own) {
            return false;
        }
    }
    true
}

// So many different children of a node are asked: where none of them is everywhere, others seldom are, and there may be 255.
const TRIES: usize = 8;

// A pair of which a child is left over at all of the nodes, where b of the branch is placed, if one is found. It is one of the first children of the
// first node, of equal neighbours asked once.
fn child_everywhere(
    pattern: &[u16],
    b: usize,
    fleet: &[u16],
    sizes: &[u8; Fleet::NODES],
    nodes: &[u16],
) -> Option<u16>
    requires { NodeToAsk pattern.now b fleet.now sizes.now nodes.now }
    ensures { MatchedBy fleet.now pattern.now result }
{
    let d = nodes[0] as usize;
    let above = (fleet[d] / Pair::UNIT - pattern[b] / Pair::UNIT) * Pair::UNIT;
    let end = d + 1 + sizes[d] as usize;
    let mut c = d + 1;
    let mut asked = None;
    let mut tries = 0;
    while c < end && tries < TRIES {
        let pair = fleet[c] - above;
        if asked != Some(pair) {
            let own = branch::equal_children(pattern, b, pair);
            if left_everywhere(fleet, sizes, nodes, pair % Pair::UNIT, own) {
                return Some(pair);
            }
            asked = Some(pair);
            tries += 1;
        }
        c = c + 1 + sizes[c] as usize;
    }
    None
}

// The pair of a leaf that the pattern can have more, below its rightmost branch, wherever it occurs, if one is found. Only pairs of children at its
// first place can be such. Level by level the nodes where the branch is placed replace the places; what is in them afterwards is free.
pub fn matched_leaf(
    pattern: &[u16],
    fleet: &[u16],
    parents: &[u16; Fleet::NODES],
    sizes: &[u8; Fleet::NODES],
    places: &mut [u16],
) -> Option<u16>
    requires { PatternToAsk pattern.now fleet.now parents.now sizes.now places.old }
    ensures { MatchedBy fleet.now pattern.now result }
{
    if places.is_empty() {
        return None;
    }
    let branch = branch::branch_of(pattern);
    let deepest = (pattern[pattern.len() - 1] / Pair::UNIT) as usize;
    let mut count = places.len();
    for steps in 0..deepest {
        let b = branch[deepest - steps];
        let pair = child_everywhere(pattern, b, fleet, sizes, &places[..count]);
        if pair.is_some() {
            return pair;
        }
        count = rise(fleet, parents, places, count);
    }
    child_everywhere(pattern, 0, fleet, sizes, &places[..count])
}
