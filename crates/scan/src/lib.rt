// The scan of the counts of a beginning: the least pair by which it goes on as a frequent form.
#![tactic(auto)]

ghost use Rattle.std.specs.Prelude.{ℕ, ◌+◌, ◌≤◌, ◌<◌, length, get_or, take};
ghost use Rattle.scan.specs.Scan.{KnownCounts, ExtensionIs, LikelyFrom};

use counts;
use matching::PATTERN_NODES;

// A pair by which a beginning goes on, with the support of the form that it makes.
#[derive(Clone, Copy)]
pub struct Extension {
    pub pair: u16,
    pub support: usize,
}

// Pairs that are looked at together, which a processor does many at a time.
const GROUP: usize = 64;

// No count of the group that begins at `from` is more than this.
fn most_of_group(counts: &[u8], from: usize) -> u8
    requires { from + 64 ≤ length counts.now }
    ensures { (x : ℕ) → from ≤ x → x < from + 64 → get_or counts.now x 0 ≤ result }
{
    let mut most: u8 = 0;
    for count in &counts[from..from + GROUP] {
        most = most.max(*count);
    }
    most
}

// The first pair from `from` on, below `end`, that is counted as often as the threshold says; `end` if there is none. One by one.
fn first_likely(counts: &[u8], from: usize, end: usize, threshold: usize) -> usize
    requires { (from ≤ end) × (end ≤ length counts.now) }
    ensures { LikelyFrom counts.now from end threshold result }
{
    for x in from..end {
        if counts[x] as usize >= threshold {
            return x;
        }
    }
    end
}

// The same. Groups in which no pair is counted so often are passed over.
fn next_likely(counts: &[u8], from: usize, end: usize, threshold: usize) -> usize
    requires { (from ≤ end) × (end ≤ length counts.now) }
    ensures { LikelyFrom counts.now from end threshold result }
{
    let mut x = from;
    while end - x >= GROUP {
        if most_of_group(counts, x) as usize >= threshold {
            return first_likely(counts, x, end, threshold);
        }
        x += GROUP;
    }
    first_likely(counts, x, end, threshold)
}

// The least pair above `low` with which the beginning of `len` pairs is a frequent form, by its counts.
pub fn scan(
    nodes: [u16; PATTERN_NODES],
    len: usize,
    low: u16,
    fleet: &[u16],
    threshold: usize,
    counts: &[u8],
) -> Option<Extension>
    requires { KnownCounts fleet.now nodes len threshold counts.now }
    ensures { ExtensionIs fleet.now threshold (take len nodes) low result }
{
    let end = counts::top(&nodes[..len]);
    let from = low as usize + 1;
    if from >= end {
        return None;
    }
    let x = next_likely(counts, from, end, threshold);
    if x == end {
        return None;
    }
    Some(Extension {
        pair: x as u16,
        support: counts[x] as usize,
    })
}
