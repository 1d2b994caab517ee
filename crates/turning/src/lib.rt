// A pattern turned: its children put in another order, so that one of its leaves stands last.
#![tactic(auto)]

ghost use Rattle.terms.specs.Tree.{IsTree};
ghost use Rattle.turned.specs.Turned.{IsLeaf};
ghost use Rattle.turning.specs.Turning.{LeafTurned};

use exchange;
use tree;
use tree::subtree;

// Turns the pattern so that the leaf stands last, and answers how many pairs at its front have not moved. What stands behind the leaf is exchanged, a
// subtree at a time, with its left neighbour, whose last node the leaf is.
pub fn turn(pattern: &mut [u16], leaf: usize) -> usize
    requires { IsTree pattern.old × IsLeaf pattern.old leaf }
    ensures { LeafTurned pattern.old leaf pattern.new result }
{
    let mut at = leaf;
    let mut unmoved = leaf;
    while at + 1 < pattern.len() {
        let next = at + 1;
        let left = subtree::left(pattern, next);
        let end = tree::subtree_end(pattern, next);
        exchange::exchange(pattern, left, next, end);
        unmoved = unmoved.min(left);
        at = end - 1;
    }
    unmoved
}
