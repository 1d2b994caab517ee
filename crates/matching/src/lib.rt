// The children of a pattern node matched with children of a data node: "A node fits if its children fit, and children fit if each node
// does, all in different places." A bipartite matching, by augmenting paths.
#![tactic(auto)]

ghost use Rattle.std.specs.Prelude.{◌≤◌, ◌<◌, ◌≡◌, length, get_or};
ghost use Rattle.terms.specs.Tells.{Tells};
ghost use Rattle.terms.specs.Tree.{IsTree};
ghost use Rattle.terms.specs.Placing.{OccursAt};
ghost use Rattle.terms.specs.Fleet.{most_nodes_of_a_tree};
ghost use Rattle.matching.specs.Limits.{most_nodes_of_a_pattern};
ghost use Rattle.matching.specs.FitsSteps.{OccursInput, Measured, LeastSize, pair_wanted, least_below, ScanInput, NextChild, FitsInput, FitsOutcome, AugmentInput, AugmentOutcome, HolderIs};

use fleet::Pair;

// The most nodes of a pattern.
pub const PATTERN_NODES: usize = 16;

// Ties the constant to the definition.
pub fn stated_pattern_nodes() -> usize
    ensures { result ≡ most_nodes_of_a_pattern }
{
    PATTERN_NODES
}

// Answers of `holder` that are no pattern node.
pub const NOBODY: usize = PATTERN_NODES;

pub const VISITED: usize = PATTERN_NODES + 1;

// Which pattern node is placed at the data node: NOBODY, or VISITED if it is one visited already. The pattern's root is nobody's child, so it
// is not among them. For the layer above.
pub fn holder(
    places: &[usize; PATTERN_NODES],
    visited: &[bool; PATTERN_NODES],
    place: usize,
) -> usize
    requires { (0 < place) × (length places.now ≡ most_nodes_of_a_pattern) × (get_or places.now 0 0 ≡ 0) }
    ensures { HolderIs places.now visited.now place result }
{
    for node in 1..PATTERN_NODES {
        if places[node] == place {
            if visited[node] {
                return VISITED;
            }
            return node;
        }
    }
    NOBODY
}

// Whether the pattern node fits at the data node `image`, which has its label: its children fit at different children of `image`.
// If so, `places`, given empty, holds such places. Who has not measured the tree's subtrees lends zeros for `sizes`.
// The last child is tried first: where a form is extended by one pair, as the listing does, a child that does not fit is the last.
// For the layer above.
#[cycle(augment_fits)]
pub fn fits(
    pattern: &[u16],
    node: usize,
    tree: &[u16],
    sizes: &[u8],
    image: usize,
    places: &mut [usize; PATTERN_NODES],
) -> bool
    requires { FitsInput pattern.now node tree.now image places.old × Measured tree.now sizes.now }
    ensures { FitsOutcome pattern.now node tree.now image places.new result }
{
    // The least pair below the children.
    let deeper = (pattern[node] / Pair::UNIT + 2) * Pair::UNIT;
    let end = tree::subtree_end(pattern, node);
    for child in (node + 1..end).rev() {
        if pattern[child] < deeper {
            let mut visited = [false; PATTERN_NODES];
            if !augment(
                pattern,
                node,
                child,
                tree,
                sizes,
                image,
                places,
                &mut visited,
            ) {
                return false;
            }
        }
    }
    true
}

// The pair of a child of `image` that has the label of the pattern's child. For the layer above.
pub fn pair_wanted(pattern: &[u16], child: usize, tree: &[u16], image: usize) -> u16
    requires { OccursInput pattern.now tree.now × (child < length pattern.now) × (image < length tree.now) }
    ensures { result ≡ pair_wanted pattern.now child tree.now image }
{
    (tree[image] / Pair::UNIT + 1) * Pair::UNIT + pattern[child] % Pair::UNIT
}

// The least pair below `image`.
fn least_below(tree: &[u16], image: usize) -> u16
    requires { IsTree tree.now × (length tree.now ≤ most_nodes_of_a_tree) × (image < length tree.now) }
    ensures { result ≡ least_below tree.now image }
{
    (tree[image] / Pair::UNIT + 1) * Pair::UNIT
}

// The first child of `image` after `last`, a child of it or `image` itself, that is the pair and has at least that size; the tree's length if
// there is none. What is below a child of `image` is skipped, as far as `sizes` tells it. Callers reckon the least pair below `image` once.
fn next_child(
    tree: &[u16],
    sizes: &[u8],
    image: usize,
    last: usize,
    pair: u16,
    least: u16,
    size: usize,
) -> usize
    requires { ScanInput tree.now image last pair × Measured tree.now sizes.now × (least ≡ least_below tree.now image) }
    ensures { NextChild tree.now sizes.now image last pair size result }
{
    let mut place = last + 1;
    if last > image {
        place += sizes[last] as usize;
    }
    while place < tree.len() {
        let here = tree[place];
        if here == pair && sizes[place] as usize >= size {
            return place;
        }
        if here < least {
            return tree.len();
        }
        place += 1 + sizes[place] as usize;
    }
    place
}

// How many nodes follow the pattern's node in its subtree: wherever it fits, at least as many do. 0 where the tree is not measured.
fn least_size(pattern: &[u16], node: usize, sizes: &[u8]) -> usize
    requires { IsTree pattern.now × (node < length pattern.now) × (0 < length sizes.now) }
    ensures { LeastSize pattern.now node sizes.now result }
{
    if sizes[0] == 0 {
        return 0;
    }
    tree::subtree_end(pattern, node) - node - 1
}

// Gives the child of `node` a place among the children of `image`, along an augmenting path: a child that holds the place and
// was not visited yet moves to another one. Without such a path the places stay as they were. For the layer above.
#[cycle(augment_fits)]
pub fn augment(
    pattern: &[u16],
    node: usize,
    child: usize,
    tree: &[u16],
    sizes: &[u8],
    image: usize,
    places: &mut [usize; PATTERN_NODES],
    visited: &mut [bool; PATTERN_NODES],
) -> bool
    requires { AugmentInput pattern.now node child tree.now image places.old visited.old × Measured tree.now sizes.now }
    ensures { AugmentOutcome pattern.now node child tree.now image places.old visited.old places.new visited.new result }
{
    visited[child] = true;
    let pair = pair_wanted(pattern, child, tree, image);
    let least = least_below(tree, image);
    let size = least_size(pattern, child, sizes);
    let mut place = image;
    loop {
        place = next_child(tree, sizes, image, place, pair, least, size);
        if place == tree.len() {
            return false;
        }
        let other = holder(places, visited, place);
        if other < VISITED {
            let mut below = [0usize; PATTERN_NODES];
            if fits(pattern, child, tree, sizes, place, &mut below) {
                if other == NOBODY
                    || augment(pattern, node, other, tree, sizes, image, places, visited)
                {
                    places[child] = place;
                    return true;
                }
            }
        }
    }
}

// Whether the pattern occurs in the tree with its root at the node. For the crates above.
pub fn occurs_at(pattern: &[u16], tree: &[u16], sizes: &[u8], node: usize) -> bool
    requires { OccursInput pattern.now tree.now × Measured tree.now sizes.now × (node < length tree.now) }
    ensures { Tells result (OccursAt pattern.now tree.now node) }
{
    // Most nodes have another label: they are told apart before any matching is begun.
    if pattern[0] % Pair::UNIT != tree[node] % Pair::UNIT {
        return false;
    }
    let mut places = [0usize; PATTERN_NODES];
    fits(pattern, 0, tree, sizes, node, &mut places)
}
