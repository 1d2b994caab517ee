// Siblings that are in order merged with others to their right that are, by exchanging stretches of the tree's own pairs.
#![tactic(auto)]

ghost use Rattle.std.specs.Prelude.{◌≡◌, ◌≤◌, ◌<◌, length, get_or};
ghost use Rattle.terms.specs.Tree.{IsTree, SubtreeEnd};
ghost use Rattle.merging.specs.Merging.{LighterThanAt, Passed, NextNoHeavier, TwoRuns, Ordered};

use fleet::Pair;

// Whether the subtree from i to e is lighter than the one at j, whose first pair is the same. Where that one ends is not looked for: what
// follows it is less than any pair below i, so that the pairs differ there.
pub fn lighter_below(s: &[u16], i: usize, e: usize, j: usize) -> bool
    requires { IsTree s.now × SubtreeEnd s.now i e × (j < length s.now) × (get_or s.now j 0 ≡ get_or s.now i 0) }
    ensures { LighterThanAt s.now i e j result }
{
    let deeper = (s[j] / Pair::UNIT + 1) * Pair::UNIT;
    // Two cursors: with a zip `form` takes more stack than it may (measured; tests, "stack: form").
    let mut x = i + 1;
    let mut y = j + 1;
    while x < e {
        if y == s.len() {
            return false;
        }
        let a = s[x];
        let b = s[y];
        if a < b {
            return true;
        }
        if b < a {
            return false;
        }
        x += 1;
        y += 1;
    }
    if y == s.len() {
        return false;
    }
    if s[y] < deeper {
        return false;
    }
    true
}

// Where the siblings heavier than the one from i to e end, which stand from m on; at most b.
pub fn heavier_end(s: &[u16], i: usize, e: usize, m: usize, b: usize) -> usize
    requires { IsTree s.now × SubtreeEnd s.now i e × (m ≤ b) × (b ≤ length s.now) }
    ensures passed { Passed s.now i e m b result }
    ensures next_no_heavier { NextNoHeavier s.now i e b result }
{
    let pair = s[i];
    // By a `while`: with a `for` the sort by insertion keeps its position on the stack, and small trees take longer (measured).
    let mut c = m;
    while c < b {
        let here = s[c];
        if here > pair {
            // A heavier sibling, or a node below one.
            c += 1;
        } else {
            if here < pair {
                return c;
            }
            if !lighter_below(s, i, e, c) {
                return c;
            }
            c += 1;
        }
    }
    c
}

// Merges the siblings from `first` to `second` with those from there to b. Those before a are in place; the sibling at a goes behind those
// from m on that are heavier, which change places with all from a to m.
pub fn merge(s: &mut [u16], first: usize, second: usize, b: usize)
    requires { IsTree s.old × TwoRuns s.old first second b }
    ensures { Ordered s.old s.new first b }
{
    let mut a = first;
    let mut m = second;
    while a < m {
        let e = tree::subtree_end(s, a);
        let c = heavier_end(s, a, e, m, b);
        exchange::exchange(s, a, m, c);
        if c == b {
            return;
        }
        a = e + (c - m);
        m = c;
    }
}
