// The supports of the forms of one node, in a table over the pairs: counted over the fleet, or taken from the sets of its label register.
#![tactic(auto)]

ghost use Rattle.std.specs.Prelude.{[], ◌≤◌, length};
ghost use Rattle.terms.specs.Fleet.{IsFleet};
ghost use Rattle.register.specs.Register.{HoldersIfLent};
ghost use Rattle.rightmost.specs.Counts.{top_of};
ghost use Rattle.index.specs.Index.{Numbers};
ghost use Rattle.counts.specs.Gathering.{Gathered};

use counts;
use fleet::{Fleet, Pair};
use noting;
use sets;

// Labels are below this.
const UNIT: usize = Pair::UNIT as usize;

// So many pairs are cleared: those of depth 0 and 1.
const PAIRS: usize = 2 * UNIT;

// Counted over the nodes of the fleet.
fn from_nodes(fleet: &[u16], numbers: &[u8; Fleet::NODES], counts: &mut [u8])
    requires { IsFleet fleet.now × Numbers fleet.now numbers.now × (top_of [] ≤ length counts.old) }
    ensures { Gathered [] fleet.now counts.old counts.new }
{
    counts::clear(counts, PAIRS);
    let mut last = [0u8; UNIT];
    for (&pair, &vehicle) in fleet.iter().zip(numbers) {
        noting::note(pair % Pair::UNIT, vehicle, counts, &mut last);
    }
}

// As many as the label's set of the fleet's register has. Most labels nobody holds.
fn from_sets(fleet: &[u16], holders: &[u64], counts: &mut [u8])
    requires { IsFleet fleet.now × (1 ≤ length holders.now) × HoldersIfLent fleet.now holders.now × (top_of [] ≤ length counts.old) }
    ensures { Gathered [] fleet.now counts.old counts.new }
{
    counts::clear(counts, PAIRS);
    for label in 1..UNIT {
        let set = holders[label - 1];
        if set != 0 {
            counts[label] = sets::size(set) as u8;
        }
    }
}

// The supports of the forms of one node, from the sets where they are lent.
pub fn gather(fleet: &[u16], holders: &[u64], numbers: &[u8; Fleet::NODES], counts: &mut [u8])
    requires { IsFleet fleet.now × HoldersIfLent fleet.now holders.now × Numbers fleet.now numbers.now × (top_of [] ≤ length counts.old) }
    ensures { Gathered [] fleet.now counts.old counts.new }
{
    if holders.len() > 0 {
        from_sets(fleet, holders, counts);
    } else {
        from_nodes(fleet, numbers, counts);
    }
}
