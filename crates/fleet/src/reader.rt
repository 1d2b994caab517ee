// What a reader keeps of the nodes read so far: five numbers, and the family of the last node met at each depth.

ghost use Rattle.std.specs.Prelude.{◌≡◌, List, [], ◌∷◌, ◌++◌, ℕ, ◌≤◌, length, set};
ghost use Rattle.terms.specs.Tree.{pair};
ghost use Rattle.terms.specs.Fleet.{family, most_depth};
ghost use Rattle.fleet.specs.Numbers.{MayCome};
ghost use Rattle.fleet.specs.Reader.{ReaderOf};

// How many nodes; what the absent fields of the next record mean, the depth of a child of the last node and its label; how many trees,
// and how many nodes of the last.
#[derive(Clone, Copy)]
pub struct Reader {
    pub nodes: usize,
    pub deeper: u16,
    pub label: u16,
    pub trees: usize,
    pub in_tree: usize,
}

impl Reader {
    // Before the first node. Rule 3 lets no field of the first record be absent, so `deeper` and `label` mean nothing yet.
    pub fn new() -> Self
        ensures { (families : List ℕ) → ReaderOf [] result families }
    {
        Reader {
            nodes: 0,
            deeper: 1,
            label: 0,
            trees: 0,
            in_tree: 0,
        }
    }

    // After one more node, which its callers have found to break no rule; its family is noted by `note_family`.
    pub fn after(self, depth: u16, label: u16) -> Self
        requires { MayCome self depth label }
        ensures { (before families : List ℕ) → length families ≡ 16 → ReaderOf before self families → ReaderOf (before ++ pair depth label ∷ []) result (set families depth (family label)) }
    {
        if depth == 0 {
            return Reader {
                nodes: self.nodes + 1,
                deeper: 1,
                label: label,
                trees: self.trees + 1,
                in_tree: 1,
            };
        }
        Reader {
            nodes: self.nodes + 1,
            deeper: depth + 1,
            label: label,
            trees: self.trees,
            in_tree: self.in_tree + 1,
        }
    }
}

// Notes the family of such a node at its depth.
pub fn note_family(families: &mut [u8; 16], depth: u16, label: u16)
    requires { (depth ≤ most_depth) × (label ≤ 999) }
    ensures { families.new ≡ set families.old depth (family label) }
{
    let i = depth as usize;
    families[i] = (label / 100) as u8;
}
