// Whether a tree is in its form, and the form of a tree (document 01, "Form and weight").
#![tactic(auto)]

ghost use Rattle.std.specs.Prelude.{◌≡◌};
ghost use Rattle.terms.specs.Tells.{decided};
ghost use Rattle.terms.proofs.LeftHeavyLaws.{in_form?};
ghost use Rattle.form.specs.FormCall.{form_answer, form_output};

use fleet::{Answer, Pair, refusal};

// The most nodes of a tree to be formed.
pub const TREE_NODES: usize = 256;

// Whether the pairs are a tree in its form: no subtree is heavier than its left neighbour's.
// Goes from the last node back, since a form with one pair more has its fault near the end.
pub fn in_form(pattern: &[u16]) -> bool
    ensures { result ≡ decided (in_form? pattern.now) }
{
    if !tree::is_tree(pattern) {
        return false;
    }
    for j in (1..pattern.len()).rev() {
        if pattern[j] / Pair::UNIT <= pattern[j - 1] / Pair::UNIT {
            let i = tree::subtree::left(pattern, j);
            let f = tree::subtree_end(pattern, j);
            if tree::subtree::lighter(pattern, i, j, j, f) {
                return false;
            }
        }
    }
    true
}

// Writes the form of the tree over the front of the output, and answers its length.
pub fn form(tree: &[u16], output: &mut [u16]) -> Answer
    ensures value { result ≡ form_answer tree.now output.old }
    ensures output_after { output.new ≡ form_output tree.now output.old }
{
    let n = tree.len();
    if n == 0 {
        return Answer::Refused(refusal::PATTERN_SIZE);
    }
    if n > TREE_NODES {
        return Answer::Refused(refusal::PATTERN_SIZE);
    }
    if !tree::is_tree(tree) {
        return Answer::Refused(refusal::NO_TREE);
    }
    if output.len() < n {
        return Answer::Refused(refusal::SHORT_OUTPUT);
    }
    tree::copy(tree, output);
    sorting::sort(&mut output[..n]);
    Answer::Done(n)
}
