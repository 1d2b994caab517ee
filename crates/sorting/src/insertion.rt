// Sorting by insertion, from the last node back: the quicker way for few nodes.
ghost use Rattle.std.specs.Prelude.{◌+◌, ◌<◌, length};
ghost use Rattle.terms.specs.Tree.{IsTree};
ghost use Rattle.terms.specs.Form.{IsForm};
ghost use Rattle.merging.specs.Merging.{Rearranged, Siblings, OrderedWithin};
ghost use Rattle.tree.specs.Subtrees.{AllBelow};

use fleet::Pair;

// A position up to which all is below the node: `known` if the next node is its child, since up to there stand siblings of that.
fn below_to(s: &[u16], node: usize, known: usize) -> usize
    requires { (node + 1 < length s.now) × Siblings s.now (node + 1) known }
    ensures { AllBelow s.now node result }
{
    if s[node] / Pair::UNIT < s[node + 1] / Pair::UNIT {
        known
    } else {
        node + 1
    }
}

// Moves the subtree at i behind its heavier siblings, where all from i + 1 on are in order; answers where it ends then. Up to `known`
// stand siblings of the node after i.
fn sink(s: &mut [u16], i: usize, known: usize) -> usize
    requires { IsTree s.old × (i + 1 < length s.old) × OrderedWithin s.old (i + 1) (length s.old) × Siblings s.old (i + 1) known }
    ensures { Rearranged s.old s.new × OrderedWithin s.new i (length s.new) × Siblings s.new i result }
{
    // Looked for from there on, so that a chain is not gone through from each of its nodes.
    let e = tree::end_from(s, i, below_to(s, i, known));
    let c = merging::heavier_end(s, i, e, e, s.len());
    exchange::exchange(s, i, e, c);
    c
}

// Puts a tree into its form. The last node has no sibling to its right, the root none at all.
pub fn sort(s: &mut [u16])
    requires { IsTree s.old }
    ensures { IsForm s.old s.new }
{
    let mut known = s.len();
    for i in (1..s.len() - 1).rev() {
        known = sink(s, i, known);
    }
}
