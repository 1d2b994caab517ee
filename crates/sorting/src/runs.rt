// Natural merge sort: from the last node back the children of each are put in order, run by run. A run is a stretch of siblings that are in
// order as they stand; two neighbouring ones are merged by exchanging stretches, short ones first, so that a large subtree is seldom moved.
ghost use Rattle.std.specs.Prelude.{◌≡◌, ◌⊎◌, true, false, ◌+◌, ◌-◌, ◌≤◌, ◌<◌, length};
ghost use Rattle.terms.specs.Tree.{IsTree, SubtreeEnd};
ghost use Rattle.terms.specs.Form.{IsForm};
ghost use Rattle.merging.specs.Merging.{LighterThanAt, Rearranged};
ghost use Rattle.sorting.specs.Sorting.{SiblingRun, HasChild, ChildrenInOrder, RunsMerged};

use fleet::Pair;

// Two runs are merged in the first round if they have at most so many pairs.
const FIRST_LIMIT: usize = 16;

// Whether the sibling at j is heavier than its left neighbour, which begins at i.
fn heavier_than_left(s: &[u16], i: usize, j: usize) -> bool
    requires { IsTree s.now × SubtreeEnd s.now i j × (j < length s.now) }
    ensures { LighterThanAt s.now i j j result }
{
    s[i] < s[j] || s[i] == s[j] && merging::lighter_below(s, i, j, j)
}

// Where the run of siblings from a on ends: at one that is heavier than its left neighbour, or where there are no more.
fn run_end(s: &[u16], a: usize) -> usize
    requires { IsTree s.now × (a < length s.now) }
    ensures { SiblingRun s.now a result }
{
    let level = s[a] / Pair::UNIT * Pair::UNIT;
    let deeper = level + Pair::UNIT;
    let mut last = a;
    // By a `while`: with a `for` a form of one or two nodes takes less stack than others (measured; tests, "stack: form").
    let mut c = a + 1;
    while c < s.len() {
        let here = s[c];
        if here >= deeper {
            c += 1;
        } else {
            if here < level {
                return c;
            }
            if heavier_than_left(s, last, c) {
                return c;
            }
            last = c;
            c += 1;
        }
    }
    c
}

// Whether two runs, from a to b, are to be merged: if they have few pairs, or if they are all the siblings from `first` on.
fn merges(s: &[u16], first: usize, a: usize, b: usize, limit: usize) -> bool
    requires { (first < length s.now) × (a ≤ b) × (b ≤ length s.now) }
    ensures { result ≡ false → limit < b - a }
{
    b - a <= limit || a <= first && (b == s.len() || s[b] / Pair::UNIT < s[first] / Pair::UNIT)
}

// The smaller of two numbers of pairs, the first 0 for none. Which it is matters for time alone: the contract says that it is one of them, and
// not 0 for none.
fn fewer(x: usize, y: usize) -> usize
    ensures { (result ≡ y) ⊎ ((result ≡ x) × (0 < x)) }
{
    if x == 0 { y } else { x.min(y) }
}

// Merges each run of the node's children with the one to its right, if the two have at most `limit` pairs or are all there is. Answers the
// fewest pairs of two runs that were left; 0 if the children are in order now.
fn merge_runs(s: &mut [u16], node: usize, limit: usize) -> usize
    requires { IsTree s.old × HasChild s.old node × ChildrenInOrder s.old (node + 1) }
    ensures { RunsMerged s.old s.new node limit result }
{
    let first = node + 1;
    let level = s[first] / Pair::UNIT * Pair::UNIT;
    let mut fewest = 0;
    let mut a = first;
    let mut m = run_end(s, first);
    while m < s.len() {
        if s[m] < level {
            return fewest;
        }
        let b = run_end(s, m);
        if merges(s, first, a, b, limit) {
            merging::merge(s, a, m, b);
            m = b;
        } else {
            fewest = fewer(fewest, b - a);
            a = m;
            m = b;
        }
    }
    fewest
}

// Puts the children of the node in order, where those of all later nodes are.
fn order_children(s: &mut [u16], node: usize)
    requires { IsTree s.old × HasChild s.old node × ChildrenInOrder s.old (node + 1) }
    ensures { Rearranged s.old s.new × ChildrenInOrder s.new node }
{
    let mut limit = FIRST_LIMIT;
    while 0 < limit {
        limit = 2 * merge_runs(s, node, limit);
    }
}

// Whether the node has a child.
fn has_child(s: &[u16], node: usize) -> bool
    requires { node < length s.now }
    ensures { (result ≡ true → HasChild s.now node) × (result ≡ false → ¬ HasChild s.now node) }
{
    node + 1 < s.len() && s[node] / Pair::UNIT < s[node + 1] / Pair::UNIT
}

// Puts a tree into its form.
pub fn sort(s: &mut [u16])
    requires { IsTree s.old }
    ensures { IsForm s.old s.new }
{
    for i in (0..s.len()).rev() {
        if has_child(s, i) {
            order_children(s, i);
        }
    }
}
