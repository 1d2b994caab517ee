// The rightmost branch of a pattern, and what it allows to follow.
#![tactic(auto)]

ghost use Rattle.std.specs.Prelude.{◌≡◌, ◌+◌, ◌/◌, ◌%◌, ◌≤◌, ◌<◌, length, get_or};
ghost use Rattle.terms.specs.Tree.{depthAt};
ghost use Rattle.terms.specs.Tells.{Tells};
ghost use Rattle.matching.specs.Limits.{most_nodes_of_a_pattern};
ghost use Rattle.rightmost.specs.Ends.{NewChild, LeavesOnly, children};
ghost use Rattle.rightmost.specs.NextPair.{LastNeighbours, Repeats};
ghost use Rattle.branch.specs.Branch.{PatternInput, BranchOf, FormInput, LevelsOf};
ghost use Rattle.branch.specs.Limit.{AllowInput, Allowed, LimitOf};

use fleet::Pair;

// The heaviest number that may be a pair.
const HEAVIEST: u16 = (Pair::DEPTH + 1) * Pair::UNIT - 1;

// The node of each depth on the rightmost branch.
pub fn branch_of(pattern: &[u16]) -> [usize; 16]
    requires { PatternInput pattern.now }
    ensures { BranchOf pattern.now result }
{
    let mut branch = [0usize; 16];
    for (i, pair) in pattern.iter().enumerate() {
        let depth = (*pair / Pair::UNIT) as usize;
        branch[depth] = i;
    }
    branch
}

// How many children of `node` are the pair, which may follow the pattern as its child.
pub fn equal_children(pattern: &[u16], node: usize, pair: u16) -> usize
    requires { NewChild pattern.now pair node × (length pattern.now ≤ most_nodes_of_a_pattern) }
    ensures { (result ≡ children pattern.now node (pair % 1000)) × (result ≤ length pattern.now) }
{
    pattern[node + 1..]
        .iter()
        .filter(|other| **other == pair)
        .count()
}

// Whether the node is the pair and has children: its first child is the node that follows it.
pub fn inner(pattern: &[u16], node: usize, pair: u16) -> bool
    requires { (node + 1 < length pattern.now) × (length pattern.now ≤ most_nodes_of_a_pattern) }
    ensures { Tells result ((get_or pattern.now node 0 ≡ pair) × (pair / 1000 < depthAt pattern.now (node + 1))) }
{
    pattern[node] == pair && pattern[node + 1] / Pair::UNIT > pair / Pair::UNIT
}

// Whether the children of `node` that are the pair are leaves, all of them.
pub fn leaves_only(pattern: &[u16], node: usize, pair: u16) -> bool
    requires { NewChild pattern.now pair node × (length pattern.now ≤ most_nodes_of_a_pattern) }
    ensures { Tells result (LeavesOnly pattern.now node (pair % 1000)) }
{
    for child in node + 1..pattern.len() - 1 {
        if inner(pattern, child, pair) {
            return false;
        }
    }
    true
}

// Whether the subtree at j, which reaches to the end, repeats its left neighbour's, at i, as far as it goes.
fn repeats(pattern: &[u16], i: usize, j: usize) -> bool
    requires { LastNeighbours pattern.now i j }
    ensures { Tells result (Repeats pattern.now i j) }
{
    pattern[i..].starts_with(&pattern[j..])
}

// The heaviest pair that the node at j of the branch and those above it allow; those above it alone allow `most`.
fn allowed(pattern: &[u16], j: usize, most: u16) -> u16
    requires { AllowInput pattern.now j most }
    ensures { Allowed pattern.now j most result }
{
    if pattern[j] / Pair::UNIT <= pattern[j - 1] / Pair::UNIT {
        let i = tree::subtree::left(pattern, j);
        if repeats(pattern, i, j) {
            let next = i + (pattern.len() - j);
            return pattern[next].min(most);
        }
    }
    most
}

// The heaviest pair that all of the branch allows.
fn limit(pattern: &[u16], branch: &[usize; 16]) -> u16
    requires { PatternInput pattern.now × BranchOf pattern.now branch.now }
    ensures { LimitOf pattern.now result }
{
    let deepest = (pattern[pattern.len() - 1] / Pair::UNIT) as usize;
    let mut most = HEAVIEST;
    for node in &branch[1..=deepest] {
        most = allowed(pattern, *node, most);
    }
    most
}

// What the branch allows, depth by depth.
pub fn levels(pattern: &[u16], heaviest: &mut [u16; 16], equal: &mut [u8; 16])
    requires { FormInput pattern.now × (length heaviest.old ≡ 16) × (length equal.old ≡ 16) }
    ensures { LevelsOf pattern.now heaviest.new equal.new }
{
    let branch = branch_of(pattern);
    let most = limit(pattern, &branch);
    let deepest = pattern[pattern.len() - 1] / Pair::UNIT;
    let last = deepest as usize;
    for depth in 0..last {
        let child = branch[depth + 1];
        let pair = pattern[child];
        if pair <= most {
            heaviest[depth] = pair;
            equal[depth] = equal_children(pattern, branch[depth], pair) as u8;
        } else {
            heaviest[depth] = most;
            equal[depth] = 0;
        }
    }
    heaviest[last] = ((deepest + 2) * Pair::UNIT - 1).min(most);
    equal[last] = 0;
}
