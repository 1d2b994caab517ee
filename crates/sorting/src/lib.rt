// The children of every node of a tree put in order, heaviest first, by moving their subtrees within the tree's own pairs. No function here
// or below has an array, and none calls itself, so the stack that a call takes does not grow with the tree.
#![tactic(auto)]

ghost use Rattle.terms.specs.Tree.{IsTree};
ghost use Rattle.terms.specs.Form.{IsForm};

mod insertion; // insertion.rt: by insertion, for few nodes
mod runs; // runs.rt: by merging runs

// Trees of at most so many nodes, as patterns are, are sorted by insertion.
const FEW: usize = 16;

// Puts a tree into its form.
pub fn sort(s: &mut [u16])
    requires { IsTree s.old }
    ensures { IsForm s.old s.new }
{
    if s.len() <= FEW {
        insertion::sort(s);
    } else {
        runs::sort(s);
    }
}
