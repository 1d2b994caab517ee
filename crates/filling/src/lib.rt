// The forms of the list after a pattern, put into the outputs of a batch: their pairs end to end, and a number of each.
#![tactic(auto)]

ghost use Rattle.std.specs.Prelude.{◌≡◌, ◌++◌, ◌+◌, ◌≤◌, length, take, drop};
ghost use Rattle.terms.specs.Remarks.{HoldsRemark, without_remarks};
ghost use Rattle.register.specs.Register.{HoldersIfLent};
ghost use Rattle.matching.specs.Limits.{most_nodes_of_a_pattern};
ghost use Rattle.expansion.specs.Levels.{tables};
ghost use Rattle.search.specs.Sought.{search_in};
ghost use Rattle.search.specs.Search.{pairs_of, NextInput, FirstInput};
ghost use Rattle.listing.specs.Listing.{asks};
ghost use Rattle.filling.specs.Filling.{number_for, FillInput, Filled};

use expansion::levels::{COUNTS, PLACES};
use expansion::tables::make;
use fleet::Fleet;
use occurrence::PATTERN_NODES;
use search::{Pattern, Request};

// By this the support is multiplied where one number tells it and the nodes: a form has fewer.
pub const SUPPORT_UNIT: usize = 100;

// A form's number: 100 times its support, and its nodes. The caller shows that both are small.
fn number(nodes: usize, held: usize) -> usize
    requires { (nodes ≤ most_nodes_of_a_pattern) × (held ≤ 64) }
    ensures { result ≡ number_for nodes held }
{
    SUPPORT_UNIT * held + nodes
}

// Puts the first `len` nodes behind the first `at` pairs of the output; the answer is where they end.
fn put(nodes: [u16; PATTERN_NODES], len: usize, output: &mut [u16], at: usize) -> usize
    requires { (len ≤ most_nodes_of_a_pattern) × (at + len ≤ length output.old) }
    ensures { (result ≡ at + len) × (output.new ≡ take at output.old ++ take len nodes ++ drop (at + len) output.old) }
{
    tree::copy(&nodes[..len], &mut output[at..]);
    at + len
}

// Fills the outputs with the forms after the pattern, whose tables are lent; the answer is how many they are. The fleet has no remarks. `holders`: the
// sets of its label register, or none.
fn fill(
    first: Pattern,
    fleet: &[u16],
    holders: &[u64],
    request: Request,
    parents: &[u16; Fleet::NODES],
    numbers: &[u8; Fleet::NODES],
    sizes: &[u8; Fleet::NODES],
    places: &mut [u16],
    lens: &mut [usize; PATTERN_NODES],
    counts: &mut [u8],
    known: &mut [bool; PATTERN_NODES],
    output: &mut [u16],
    found: &mut [usize],
) -> usize
    requires { ¬ HoldsRemark fleet.now × HoldersIfLent fleet.now holders.now × NextInput (search_in fleet.now request) first (tables parents.now numbers.now sizes.now places.old lens.old counts.old known.old) × FillInput (asks fleet.now request) (pairs_of first) }
    ensures { Filled (asks fleet.now request) (pairs_of first) output.old found.old result output.new found.new }
{
    let mut pattern = first;
    let mut at = 0;
    let mut given = 0;
    while given < found.len() && output.len() - at >= request.bound {
        let next = profiles::next(
            pattern, fleet, holders, request, parents, numbers, sizes, places, lens, counts, known,
            true,
        );
        let Some(form) = next else {
            return given;
        };
        at = put(form.pattern.nodes, form.pattern.len, output, at);
        found[given] = number(form.pattern.len, form.support);
        given += 1;
        pattern = form.pattern;
    }
    given
}

// The same where the tables are not at hand.
fn fill_anew(
    first: Pattern,
    fleet: &[u16],
    holders: &[u64],
    request: Request,
    output: &mut [u16],
    found: &mut [usize],
) -> usize
    requires { ¬ HoldsRemark fleet.now × HoldersIfLent fleet.now holders.now × FirstInput (search_in fleet.now request) first × FillInput (asks fleet.now request) (pairs_of first) }
    ensures { Filled (asks fleet.now request) (pairs_of first) output.old found.old result output.new found.new }
{
    let mut parents = [0u16; Fleet::NODES];
    let mut numbers = [0u8; Fleet::NODES];
    let mut sizes = [0u8; Fleet::NODES];
    let mut places = [0u16; PLACES];
    let mut lens = [0usize; PATTERN_NODES];
    let mut counts = [0u8; COUNTS];
    let mut known = [false; PATTERN_NODES];
    make(
        first.nodes,
        first.len,
        fleet,
        &mut parents,
        &mut numbers,
        &mut sizes,
        &mut places,
        &mut lens,
        &mut known,
    );
    fill(
        first,
        fleet,
        holders,
        request,
        &parents,
        &numbers,
        &sizes,
        &mut places,
        &mut lens,
        &mut counts,
        &mut known,
        output,
        found,
    )
}

// The same for any accepted fleet: the forms are searched for in the fleet with remarks taken out. Where there are none it is searched as it is.
// Only there the sets of its register are lent on: they are of all its nodes.
pub fn fill_counted(
    first: Pattern,
    fleet: &[u16],
    holders: &[u64],
    request: Request,
    output: &mut [u16],
    found: &mut [usize],
) -> usize
    requires { HoldersIfLent fleet.now holders.now × FirstInput (search_in (without_remarks fleet.now) request) first × FillInput (asks fleet.now request) (pairs_of first) }
    ensures { Filled (asks fleet.now request) (pairs_of first) output.old found.old result output.new found.new }
{
    if !remarks::any(fleet) {
        return fill_anew(first, fleet, holders, request, output, found);
    }
    let mut counted = [0u16; Fleet::NODES];
    let len = remarks::copy_without(fleet, &mut counted);
    let none = [0u64; 0];
    fill_anew(first, &counted[..len], &none, request, output, found)
}
