// The fleet: its limits, the rules of its nodes, and the check of lent pairs. Document 01, "Pairs, trees and the fleet".
#![tactic(auto)]

ghost use Rattle.std.specs.Prelude.{◌≡◌, List, [], ◌∷◌, ◌++◌, ℕ};
ghost use Rattle.terms.specs.Tree.{pair};
ghost use Rattle.terms.specs.Fleet.{most_trees, most_nodes_of_a_tree, most_nodes, most_depth};
ghost use Rattle.terms.specs.Tells.{decided};
ghost use Rattle.terms.proofs.FleetLaws.{fleet?};
ghost use Rattle.fleet.specs.Numbers.{MayCome};
ghost use Rattle.fleet.specs.Reader.{StateOf, Joined};

use crate::reader::Reader;

pub mod refusal; // refusal.rt: the numbers of the refusals
pub mod rules; // rules.rt: the rules 5, 6, 7 and 9 on a reader's numbers, with the family table
pub mod reader; // reader.rt: what a reader keeps of the nodes read so far

// A node is one number: `UNIT` times its depth, and its label.
#[derive(Clone, Copy)]
pub struct Pair {}

impl Pair {
    pub const UNIT: u16 = 1000;

    // The deepest node of a tree, be it a fleet's or a pattern.
    pub const DEPTH: u16 = 15;

    pub const LABEL: u16 = 999;
}

// The fleet's type: its limits are named once, here. `stated_limits` ties them to the numbers of the specification.
#[derive(Clone, Copy)]
pub struct Fleet {}

impl Fleet {
    pub const TREES: usize = 64;

    pub const TREE_NODES: usize = 256;

    pub const NODES: usize = 4096;

    pub const DEPTH: u16 = 15;

    // The bytes that decide any sheet: those of the records of one node more than a fleet has.
    pub const SHEET: usize = 4 * (Fleet::NODES + 1);
}

// The four limits in one struct, for the fact that ties them to the specification.
#[derive(Clone, Copy)]
pub struct Limits {
    pub trees: usize,
    pub in_tree: usize,
    pub nodes: usize,
    pub depth: u16,
}

pub fn stated_limits() -> Limits
    ensures { (result.trees ≡ most_trees) × (result.in_tree ≡ most_nodes_of_a_tree) × (result.nodes ≡ most_nodes) × (result.depth ≡ most_depth) }
{
    Limits {
        trees: Fleet::TREES,
        in_tree: Fleet::TREE_NODES,
        nodes: Fleet::NODES,
        depth: Fleet::DEPTH,
    }
}

// What a call answers: a number of pairs, bytes or vehicles, or the number of its refusal.
#[derive(Clone, Copy)]
pub enum Answer {
    Done(usize),
    Refused(u8),
}

// What a reader keeps of the nodes read so far. The fields are private, so every state outside this crate comes from `State::new`,
// `State::join` and `State::after`.
#[derive(Clone, Copy)]
pub struct State {
    reader: Reader,
    families: [u8; 16],
}

impl State {
    // The state before the first node.
    pub fn new() -> Self
        ensures { StateOf [] result }
    {
        let families = [0u8; 16];
        State {
            reader: Reader::new(),
            families: families,
        }
    }

    // What it keeps, for the crate above: the numbers and the families.
    pub fn reader(self) -> Reader
        ensures { result ≡ self.reader }
    {
        self.reader
    }

    pub fn families(self) -> [u8; 16]
        ensures { result ≡ self.families }
    {
        self.families
    }

    // The state after one more node, which its callers, `join` and the crate above, have found to break no rule.
    pub fn after(self, depth: u16, label: u16) -> Self
        requires { MayCome self.reader depth label }
        ensures { (before : List ℕ) → StateOf before self → StateOf (before ++ pair depth label ∷ []) result }
    {
        let mut families = self.families;
        reader::note_family(&mut families, depth, label);
        let reader = self.reader;
        State {
            reader: reader.after(depth, label),
            families: families,
        }
    }

    // A node joins those of the state, if it breaks none of the rules 5, 6, 7 and 9.
    pub fn join(self, depth: u16, label: u16) -> Joining
        ensures { (before : List ℕ) → StateOf before self → Joined before self depth label result }
    {
        let table = rules::family_table();
        let families = self.families;
        let number = rules::broken(&table, self.reader, &families, depth, label);
        if number > 0 {
            return Joining {
                refusal: number,
                state: self,
            };
        }
        Joining {
            refusal: 0,
            state: self.after(depth, label),
        }
    }
}

// The number of the rule that a node breaks, 0 if none; and the state with the node, or as it was.
#[derive(Clone, Copy)]
pub struct Joining {
    pub refusal: u8,
    pub state: State,
}

// Whether lent pairs are an accepted fleet.
pub fn is_fleet(pairs: &[u16]) -> bool
    ensures { result ≡ decided (fleet? pairs.now) }
{
    if pairs.len() == 0 {
        return false;
    }
    let table = rules::family_table();
    let mut reader = Reader::new();
    let mut families = [0u8; 16];
    for &pair in pairs {
        let depth = pair / Pair::UNIT;
        let label = pair % Pair::UNIT;
        if rules::broken(&table, reader, &families, depth, label) > 0 {
            return false;
        }
        reader = reader.after(depth, label);
        reader::note_family(&mut families, depth, label);
    }
    true
}
