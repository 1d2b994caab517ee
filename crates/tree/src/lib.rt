// Pairs as a tree: whether they are one, where a node's subtree ends, and their copy.
#![tactic(auto)]

ghost use Rattle.std.specs.Prelude.{◌≡◌, ◌++◌, ◌+◌, ◌*◌, ◌≤◌, ◌<◌, length, drop};
ghost use Rattle.terms.specs.Tree.{IsTree, depthAt, SubtreeEnd};
ghost use Rattle.terms.specs.Tells.{decided};
ghost use Rattle.terms.proofs.TreeLaws.{tree?};
ghost use Rattle.tree.specs.Subtrees.{AllBelow};

use fleet::Pair;

pub mod subtree;

// Whether the pairs are a tree.
pub fn is_tree(pairs: &[u16]) -> bool
    ensures { result ≡ decided (tree? pairs.now) }
{
    if pairs.len() == 0 || pairs[0] == 0 || pairs[0] >= Pair::UNIT {
        return false;
    }
    let mut above: u16 = 0;
    // By the index: with the slice behind the root a form takes longer (measured).
    for i in 1..pairs.len() {
        let x = pairs[i];
        let depth = x / Pair::UNIT;
        if x % Pair::UNIT == 0 || depth == 0 || depth > Pair::DEPTH || depth > above + 1 {
            return false;
        }
        above = depth;
    }
    true
}

// The least pair that is deeper than the node.
pub fn least_deeper(tree: &[u16], node: usize) -> u16
    requires { IsTree tree.now × (node < length tree.now) }
    ensures { result ≡ (depthAt tree.now node + 1) * 1000 }
{
    (tree[node] / Pair::UNIT + 1) * Pair::UNIT
}

// Where the subtree of the node ends. The caller shows a tree and a node of it.
pub fn subtree_end(tree: &[u16], node: usize) -> usize
    requires { IsTree tree.now × (node < length tree.now) }
    ensures { SubtreeEnd tree.now node result }
{
    end_from(tree, node, node + 1)
}

// The same, looked for from a position up to which all behind the node is below it.
pub fn end_from(tree: &[u16], node: usize, from: usize) -> usize
    requires { IsTree tree.now × AllBelow tree.now node from }
    ensures { SubtreeEnd tree.now node result }
{
    let deeper = least_deeper(tree, node);
    // By a `while`: with `position` or a `for` a form takes longer, or not one stack for every tree (measured; tests, "stack: form").
    let mut end = from;
    while end < tree.len() && tree[end] >= deeper {
        end += 1;
    }
    end // at the first pair that is not below, or behind all
}

// Copies the pairs over the front of the output. The caller shows that there is room. By hand: std's `copy_from_slice` may call `memmove`,
// which programs that link the library need not have.
pub fn copy(pairs: &[u16], output: &mut [u16])
    requires { length pairs.now ≤ length output.old }
    ensures { output.new ≡ pairs.now ++ drop (length pairs.now) output.old }
{
    for i in 0..pairs.len() {
        output[i] = pairs[i];
    }
}
