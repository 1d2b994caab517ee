// Subtrees by positions: where the left neighbour begins, and which of two is lighter.
ghost use Rattle.std.specs.Prelude.{◌≡◌, ◌≤◌, ◌<◌, length};
ghost use Rattle.std.proofs.Math.Seq.{slice};
ghost use Rattle.terms.specs.Tree.{IsTree, depthAt, SubtreeEnd};
ghost use Rattle.terms.specs.Tells.{decided};
ghost use Rattle.terms.proofs.OrderLaws.{lighter?};
ghost use Rattle.tree.specs.Subtrees.{HasLeft};

// Where the left neighbour of the node at j begins, which is no first child.
pub fn left(s: &[u16], j: usize) -> usize
    requires { IsTree s.now × HasLeft s.now j }
    ensures { SubtreeEnd s.now result j × (depthAt s.now result ≡ depthAt s.now j) }
{
    let deeper = crate::least_deeper(s, j);
    // The root, if nothing nearer, is no deeper.
    s[..j].iter().rposition(|pair| *pair < deeper).unwrap()
}

// Whether the pairs from i to e are lighter than those from j to f.
pub fn lighter(s: &[u16], i: usize, e: usize, j: usize, f: usize) -> bool
    requires { (e ≤ length s.now) × (f ≤ length s.now) × (i < e) × (j < f) }
    ensures { result ≡ decided (lighter? (slice i e s.now) (slice j f s.now)) }
{
    &s[i..e] < &s[j..f]
}
