// The search behind the list (document 01, "The list"): a pattern by value, and the step from it to the lightest form sought that is heavier.
// Crate listing has the calls that rest on it.
#![tactic(auto)]

ghost use Rattle.std.specs.Prelude.{◌≡◌, [], ◌≤◌, ◌<◌, length, take};
ghost use Rattle.register.specs.Register.{HoldersIfLent};
ghost use Rattle.matching.specs.Limits.{most_nodes_of_a_pattern};
ghost use Rattle.expansion.specs.Levels.{tables_if};
ghost use Rattle.expansion.specs.Making.{ReachInput};
ghost use Rattle.search.specs.Sought.{search_in};
ghost use Rattle.search.specs.Search.{pairs_of, Arrived, NextInput, NextIs};

use expansion::levels::extend;
use expansion::tables::reach;
use scan::Extension;

// What is asked of a fleet: how many vehicles are enough, how many nodes a form may have, and which of these forms are listed (crate profiles).
#[derive(Clone, Copy)]
pub struct Request {
    pub threshold: usize,
    pub bound: usize,
    pub profile: usize,
}

// A pattern by value: its pairs are the first `len` of `nodes`.
#[derive(Clone, Copy)]
pub struct Pattern {
    pub nodes: [u16; occurrence::PATTERN_NODES],
    pub len: usize,
}

// A form that the search found, with its support.
#[derive(Clone, Copy)]
pub struct FrequentPattern {
    pub pattern: Pattern,
    pub support: usize,
}

// Where the pattern may be one pair longer, its places are listed.
fn arrive(
    nodes: [u16; occurrence::PATTERN_NODES],
    len: usize,
    bound: usize,
    fleet: &[u16],
    parents: &[u16; fleet::Fleet::NODES],
    sizes: &[u8; fleet::Fleet::NODES],
    places: &mut [u16],
    lens: &mut [usize; occurrence::PATTERN_NODES],
    known: &mut [bool; occurrence::PATTERN_NODES],
)
    requires { len < bound → ReachInput fleet.now nodes len parents.now sizes.now places.old lens.old known.old }
    ensures { Arrived fleet.now nodes len bound parents.now sizes.now places.old lens.old known.old places.new lens.new known.new }
{
    if len < bound {
        reach(nodes, len, fleet, parents, sizes, places, lens, known);
    }
}

// Lent pairs at the front of an array.
fn array_of(pairs: &[u16]) -> [u16; occurrence::PATTERN_NODES]
    requires { length pairs.now ≤ most_nodes_of_a_pattern }
    ensures { take (length pairs.now) result ≡ pairs.now }
{
    let mut nodes = [0u16; occurrence::PATTERN_NODES];
    nodes[..pairs.len()].copy_from_slice(pairs);
    nodes
}

impl Pattern {
    // The empty sequence: from it a step gives the lightest form sought.
    pub fn empty() -> Pattern
        ensures { (result.len ≡ 0) × (pairs_of result ≡ []) }
    {
        Pattern {
            nodes: [0; occurrence::PATTERN_NODES],
            len: 0,
        }
    }

    // The pattern of lent pairs.
    pub fn of(pairs: &[u16]) -> Pattern
        requires { length pairs.now ≤ most_nodes_of_a_pattern }
        ensures { (result.len ≡ length pairs.now) × (pairs_of result ≡ pairs.now) }
    {
        Pattern {
            nodes: array_of(pairs),
            len: pairs.len(),
        }
    }

    // The step of the search: the lightest form sought that is heavier than the pattern, or end. The tables (crate expansion) are the pattern's,
    // and then those of the form that is given, so that the next step need not make them again. The caller shows that the fleet is accepted, that
    // threshold and bound are a request's, that the pattern keeps to the bound and is empty or a form, and that the tables are its own: of the
    // empty pattern those of the fleet are enough, and of a form those that the step left which gave it. `kept` tells that there is room for the
    // counts of all levels, for a caller who goes on; else there is room for those of one. The sets of the fleet's label register may be lent in
    // `holders`, or none: they save counting labels.
    pub fn next(
        self,
        fleet: &[u16],
        holders: &[u64],
        request: Request,
        parents: &[u16; fleet::Fleet::NODES],
        numbers: &[u8; fleet::Fleet::NODES],
        sizes: &[u8; fleet::Fleet::NODES],
        places: &mut [u16],
        lens: &mut [usize; occurrence::PATTERN_NODES],
        counts: &mut [u8],
        known: &mut [bool; occurrence::PATTERN_NODES],
        kept: bool,
    ) -> Option<FrequentPattern>
        requires { HoldersIfLent fleet.now holders.now × NextInput (search_in fleet.now request) self (tables_if kept parents.now numbers.now sizes.now places.old lens.old counts.old known.old) }
        ensures { NextIs (search_in fleet.now request) self result (tables_if kept parents.now numbers.now sizes.now places.new lens.new counts.new known.new) }
    {
        let Pattern { nodes, mut len } = self;
        let Request {
            threshold,
            bound,
            ..
        } = request;
        let mut low = 0;
        arrive(
            nodes, len, bound, fleet, parents, sizes, places, lens, known,
        );
        loop {
            if len < bound {
                let extension = extend(
                    nodes, len, low, fleet, holders, threshold, parents, numbers, sizes, places,
                    lens, counts, known, kept,
                );
                if let Some(Extension { pair, support }) = extension {
                    let mut longer = nodes;
                    longer[len] = pair;
                    let pattern = Pattern {
                        nodes: longer,
                        len: len + 1,
                    };
                    return Some(FrequentPattern { pattern, support });
                }
            }
            if len == 0 {
                return None;
            }
            len -= 1;
            low = nodes[len];
        }
    }
}
