// The heaviest placing: the root at the largest node where it fits, then child by child the largest place that leaves places for the rest.
// It is asked for one tree at a time, so no subtree is measured: `sizes`, which the matching is lent, are zeros.
#![tactic(auto)]

ghost use Rattle.std.specs.Prelude.{suc, ◌<◌, length};
ghost use Rattle.terms.specs.Tree.{SubtreeEnd};
ghost use Rattle.matching.specs.FitsSteps.{OccursInput, Measured};
ghost use Rattle.heaviest.specs.Heaviest.{PlaceInput, PlacingWritten};
ghost use Rattle.heaviest.specs.RaiseSteps.{PutInput, PutOutcome, RaiseInput, Raised, RaiseAllInput, AllRaised};
ghost use Rattle.heaviest.specs.PlaceSteps.{LastRoot, OnlyFront, WriteInput, Written, PlacedBefore};

use fleet::Pair;
use matching::PATTERN_NODES;

// Moves the child of `node`, which has no place, to this one, if it fits there and a child that holds it can move elsewhere; those in
// `fixed` stay.
fn put(
    pattern: &[u16],
    node: usize,
    child: usize,
    tree: &[u16],
    sizes: &[u8],
    image: usize,
    place: usize,
    places: &mut [usize; PATTERN_NODES],
    fixed: &[bool; PATTERN_NODES],
) -> bool
    requires { PutInput pattern.now node child tree.now image place places.old fixed.now × Measured tree.now sizes.now }
    ensures { PutOutcome pattern.now node child tree.now image place places.old places.new result }
{
    let other = matching::holder(places, fixed, place);
    if other < matching::VISITED {
        let mut below = [0usize; PATTERN_NODES];
        if matching::fits(pattern, child, tree, sizes, place, &mut below) {
            let mut visited = *fixed;
            if other == matching::NOBODY
                || matching::augment(
                    pattern,
                    node,
                    other,
                    tree,
                    sizes,
                    image,
                    places,
                    &mut visited,
                )
            {
                places[child] = place;
                return true;
            }
        }
    }
    false
}

// Moves the child of `node` to the largest place that leaves places for the children after it; those in `fixed` stay. The subtree of `image`
// ends at `end`.
fn raise(
    pattern: &[u16],
    node: usize,
    child: usize,
    tree: &[u16],
    sizes: &[u8],
    image: usize,
    end: usize,
    places: &mut [usize; PATTERN_NODES],
    fixed: &[bool; PATTERN_NODES],
)
    requires { RaiseInput pattern.now node child tree.now image places.old fixed.now × SubtreeEnd tree.now image end × Measured tree.now sizes.now }
    ensures { Raised pattern.now node child tree.now image places.old places.new }
{
    let pair = matching::pair_wanted(pattern, child, tree, image);
    let old = places[child];
    places[child] = 0;
    for place in (old + 1..end).rev() {
        if tree[place] == pair
            && put(
                pattern, node, child, tree, sizes, image, place, places, fixed,
            )
        {
            return;
        }
    }
    places[child] = old;
}

// Moves all children of `node`, in order, to their largest places.
fn raise_children(
    pattern: &[u16],
    node: usize,
    tree: &[u16],
    sizes: &[u8],
    image: usize,
    places: &mut [usize; PATTERN_NODES],
)
    requires { RaiseAllInput pattern.now node tree.now image places.old × Measured tree.now sizes.now }
    ensures { AllRaised pattern.now node tree.now image places.new }
{
    // The least pair below the children.
    let deeper = (pattern[node] / Pair::UNIT + 2) * Pair::UNIT;
    let end = tree::subtree_end(pattern, node);
    let stop = tree::subtree_end(tree, image);
    let mut fixed = [false; PATTERN_NODES];
    for child in node + 1..end {
        if pattern[child] < deeper {
            fixed[child] = true;
            raise(
                pattern, node, child, tree, sizes, image, stop, places, &fixed,
            );
        }
    }
}

// Writes the numbers of the places that are held.
fn write_places(places: &[usize; PATTERN_NODES], nodes: usize, output: &mut [u16])
    requires { WriteInput places.now nodes output.old }
    ensures { Written places.now nodes output.old output.new }
{
    for node in 0..nodes {
        let place = places[node];
        if place > 0 {
            output[node] = (place + 1) as u16;
        }
    }
}

// Writes the places of the node's children; its own is written.
fn place_children(pattern: &[u16], node: usize, tree: &[u16], sizes: &[u8], output: &mut [u16])
    requires { PlaceInput pattern.now tree.now output.old × PlacedBefore pattern.now tree.now output.old node × (node < length pattern.now) × Measured tree.now sizes.now }
    ensures { PlacedBefore pattern.now tree.now output.new (suc node) × OnlyFront (length pattern.now) output.old output.new }
{
    let image = output[node] as usize - 1;
    let mut places = [0usize; PATTERN_NODES];
    matching::fits(pattern, node, tree, sizes, image, &mut places);
    raise_children(pattern, node, tree, sizes, image, &mut places);
    write_places(&places, pattern.len(), output);
}

// The last node where the pattern occurs.
fn last_root(pattern: &[u16], tree: &[u16], sizes: &[u8]) -> Option<usize>
    requires { OccursInput pattern.now tree.now × Measured tree.now sizes.now }
    ensures { LastRoot pattern.now tree.now result }
{
    for node in (0..tree.len()).rev() {
        if matching::occurs_at(pattern, tree, sizes, node) {
            return Some(node);
        }
    }
    None
}

// Writes the heaviest placing, if the pattern occurs. For the crate above.
pub fn write(pattern: &[u16], tree: &[u16], output: &mut [u16]) -> bool
    requires { PlaceInput pattern.now tree.now output.old }
    ensures { PlacingWritten pattern.now tree.now output.old output.new result }
{
    let sizes = [0u8; fleet::Fleet::TREE_NODES];
    let Some(root) = last_root(pattern, tree, &sizes) else {
        return false;
    };
    output[0] = (root + 1) as u16;
    for node in 0..pattern.len() {
        place_children(pattern, node, tree, &sizes, output);
    }
    true
}
