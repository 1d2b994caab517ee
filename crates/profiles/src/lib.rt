// Closed and maximal lists (document 02): the step from a pattern to the next form that the profile lists. It goes through the forms of the search
// one by one, since the beginnings of a closed form need not be closed.
#![tactic(auto)]

ghost use Rattle.std.specs.Prelude.{◌≡◌, ℕ, take};
ghost use Rattle.terms.specs.Tells.{Tells};
ghost use Rattle.register.specs.Register.{HoldersIfLent};
ghost use Rattle.occurrence.specs.Support.{whole_support};
ghost use Rattle.supertrees.specs.Profile.{full, closed, maximal, Selects};
ghost use Rattle.expansion.specs.Levels.{tables_if};
ghost use Rattle.pruning.specs.Pruning.{MatchedBeginning};
ghost use Rattle.search.specs.Sought.{search_in};
ghost use Rattle.search.specs.Search.{NextInput, FirstInput};
ghost use Rattle.profiles.specs.Selected.{FoundInput, Told, SelectedNext, SelectedFirst};

use blanket;
use expansion::levels::{LEVEL, PLACES};
use expansion::tables::make;
use fleet::Fleet;
use occurrence::PATTERN_NODES;
use pruning;
use pruning::{Matched, find_matched};
use search::{FrequentPattern, Pattern, Request};

// The profiles of a list, by their numbers.
pub const FULL: usize = 0;

pub const CLOSED: usize = 1;

pub const MAXIMAL: usize = 2;

// The three in one struct, for the fact that ties them to the specification.
#[derive(Clone, Copy)]
pub struct Profiles {
    pub full: usize,
    pub closed: usize,
    pub maximal: usize,
}

pub fn stated_profiles() -> Profiles
    ensures { (result.full ≡ full) × (result.closed ≡ closed) × (result.maximal ≡ maximal) }
{
    Profiles {
        full: FULL,
        closed: CLOSED,
        maximal: MAXIMAL,
    }
}

// Whether the profile lists a form that the search found, with its support `held`: a full list lists all, a closed one
// those of which no supertree reaches their own support, a maximal one those of which none reaches the threshold.
fn selects(
    nodes: [u16; PATTERN_NODES],
    len: usize,
    held: usize,
    request: Request,
    fleet: &[u16],
    parents: &[u16; Fleet::NODES],
    numbers: &[u8; Fleet::NODES],
    sizes: &[u8; Fleet::NODES],
    places: &[u16],
    lens: &[usize; PATTERN_NODES],
) -> bool
    requires { FoundInput (search_in fleet.now request) nodes len held parents.now numbers.now sizes.now places.now lens.now }
    ensures { Tells result (Selects request.profile (whole_support fleet.now) request.threshold (take len nodes)) }
{
    let need = if request.profile == CLOSED {
        held
    } else {
        request.threshold
    };
    request.profile == FULL
        || !blanket::reaches(
            nodes, len, need, fleet, parents, numbers, sizes, places, lens,
        )
}

// What is told of a form that the search found: whether the profile lists it, and a matched beginning of it, if one is known.
#[derive(Clone, Copy)]
struct Assessed {
    listed: bool,
    matched: Option<Matched>,
}

// Tells that of a form; `matched` is of the form `before` it. A full list has all forms. Of the others no test is needed for a form that a matched
// beginning covers, nor for one that can have a leaf more wherever it occurs; to look for that pays where longer forms may follow.
fn assess(
    matched: Option<Matched>,
    before: [u16; PATTERN_NODES],
    nodes: [u16; PATTERN_NODES],
    len: usize,
    held: usize,
    request: Request,
    fleet: &[u16],
    parents: &[u16; Fleet::NODES],
    numbers: &[u8; Fleet::NODES],
    sizes: &[u8; Fleet::NODES],
    places: &[u16],
    lens: &[usize; PATTERN_NODES],
) -> Assessed
    requires found_input { FoundInput (search_in fleet.now request) nodes len held parents.now numbers.now sizes.now places.now lens.now }
    requires by_index { (n : ℕ) × MatchedBeginning fleet.now before n matched }
    ensures { Told (search_in fleet.now request) nodes len result }
{
    let known = pruning::kept(matched, before, nodes, len);
    if request.profile == FULL {
        return Assessed {
            listed: true,
            matched: known,
        };
    }
    if pruning::covers(known, nodes, len) {
        return Assessed {
            listed: false,
            matched: known,
        };
    }
    if len < request.bound {
        let found = find_matched(nodes, len, fleet, parents, sizes, places, lens);
        if found.is_some() {
            return Assessed {
                listed: false,
                matched: found,
            };
        }
    }
    let listed = selects(
        nodes, len, held, request, fleet, parents, numbers, sizes, places, lens,
    );
    Assessed {
        listed,
        matched: known,
    }
}

// The step at a profile: the lightest form of it that is heavier than the pattern, or end. What the caller shows, and what the tables hold
// afterwards, is as for the search's own step (`Pattern::next`).
pub fn next(
    given: Pattern,
    fleet: &[u16],
    holders: &[u64],
    request: Request,
    parents: &[u16; Fleet::NODES],
    numbers: &[u8; Fleet::NODES],
    sizes: &[u8; Fleet::NODES],
    places: &mut [u16],
    lens: &mut [usize; PATTERN_NODES],
    counts: &mut [u8],
    known: &mut [bool; PATTERN_NODES],
    kept: bool,
) -> Option<FrequentPattern>
    requires { HoldersIfLent fleet.now holders.now × NextInput (search_in fleet.now request) given (tables_if kept parents.now numbers.now sizes.now places.old lens.old counts.old known.old) }
    ensures { SelectedNext (search_in fleet.now request) given result (tables_if kept parents.now numbers.now sizes.now places.new lens.new counts.new known.new) }
{
    let mut pattern = given;
    let mut matched = None;
    loop {
        let found = pattern.next(
            fleet, holders, request, parents, numbers, sizes, places, lens, counts, known, kept,
        )?;
        let form = found.pattern;
        let assessed = assess(
            matched,
            pattern.nodes,
            form.nodes,
            form.len,
            found.support,
            request,
            fleet,
            parents,
            numbers,
            sizes,
            places,
            lens,
        );
        if assessed.listed {
            return Some(found);
        }
        matched = assessed.matched;
        pattern = form;
    }
}

// The step from a pattern whose tables are not at hand: they are made first. No counts are kept: the room for those of
// all levels would be on the stack of every start and step. The sets of the fleet's label register may be lent in `holders`, or none.
pub fn first_step(
    given: Pattern,
    fleet: &[u16],
    holders: &[u64],
    request: Request,
) -> Option<FrequentPattern>
    requires { HoldersIfLent fleet.now holders.now × FirstInput (search_in fleet.now request) given }
    ensures { SelectedFirst (search_in fleet.now request) given result }
{
    let mut parents = [0u16; Fleet::NODES];
    let mut numbers = [0u8; Fleet::NODES];
    let mut sizes = [0u8; Fleet::NODES];
    let mut places = [0u16; PLACES];
    let mut lens = [0usize; PATTERN_NODES];
    let mut counts = [0u8; LEVEL];
    let mut known = [false; PATTERN_NODES];
    make(
        given.nodes,
        given.len,
        fleet,
        &mut parents,
        &mut numbers,
        &mut sizes,
        &mut places,
        &mut lens,
        &mut known,
    );
    next(
        given,
        fleet,
        holders,
        request,
        &parents,
        &numbers,
        &sizes,
        &mut places,
        &mut lens,
        &mut counts,
        &mut known,
        false,
    )
}
