// The rules of a node, 5, 6, 7 and 9, on the numbers that a reader keeps.

ghost use Rattle.std.specs.Prelude.{◌≡◌, List, ℕ, ◌≤◌};
ghost use Rattle.terms.specs.Tells.{Tells};
ghost use Rattle.terms.specs.Fleet.{marks, MayStandUnder, most_depth};
ghost use Rattle.terms.specs.Refusal.{refusal};
ghost use Rattle.fleet.specs.NodeRules.{fit_rules, node_rules};
ghost use Rattle.fleet.specs.Numbers.{DepthFits, FamilyFits, RoomLeft, MayCome};
ghost use Rattle.fleet.specs.Reader.{ReaderOf};

use crate::reader::Reader;
use crate::{Fleet, Pair, refusal};

// Which family may stand under which: a row for each family below, a column for each family above.
const FAMILIES: [[u8; 10]; 10] = [
    [0, 0, 0, 0, 0, 0, 0, 0, 0, 0],
    [0, 0, 0, 0, 0, 0, 0, 0, 0, 0],
    [0, 1, 0, 0, 0, 0, 0, 0, 0, 0],
    [0, 0, 1, 0, 0, 0, 0, 0, 0, 0],
    [0, 0, 0, 1, 1, 0, 0, 0, 0, 0],
    [0, 0, 0, 1, 1, 0, 0, 0, 0, 0],
    [0, 1, 1, 1, 0, 0, 0, 0, 0, 0],
    [0, 0, 0, 0, 0, 0, 0, 0, 0, 0],
    [0, 0, 0, 0, 0, 0, 0, 0, 0, 0],
    [0, 0, 0, 0, 0, 0, 0, 0, 0, 0],
];

// The table as a value, to be lent: where the constant itself is indexed, all of it is laid out anew at each look.
pub fn family_table() -> [[u8; 10]; 10]
    ensures { result ≡ marks }
{
    FAMILIES
}

fn may_stand_under(table: &[[u8; 10]; 10], below: u16, above: u8) -> bool
    requires { table.now ≡ marks }
    ensures { Tells result (MayStandUnder below above) }
{
    if below >= 10 || above >= 10 {
        return false;
    }
    let row = below as usize;
    let column = above as usize;
    table[row][column] == 1
}

// Rule 5.
fn depth_fits(nodes: usize, deeper: u16, depth: u16) -> bool
    ensures { Tells result (DepthFits nodes deeper depth) }
{
    if depth > Fleet::DEPTH {
        return false;
    }
    if nodes == 0 {
        return depth == 0;
    }
    depth <= deeper
}

// Rule 7.
fn family_fits(table: &[[u8; 10]; 10], families: &[u8; 16], depth: u16, label: u16) -> bool
    requires { (table.now ≡ marks) × (depth ≤ most_depth) }
    ensures { Tells result (FamilyFits families.now depth label) }
{
    let family = label / 100;
    if depth == 0 {
        return family == 1;
    }
    let up = depth as usize - 1;
    may_stand_under(table, family, families[up])
}

// The number of the first of the rules 5, 6 and 7 that a node breaks behind those read so far, 0 if it breaks none. For `broken` and the
// crate above, which lend `family_table`.
pub fn unfit(
    table: &[[u8; 10]; 10],
    reader: Reader,
    families: &[u8; 16],
    depth: u16,
    label: u16,
) -> u8
    requires { table.now ≡ marks }
    ensures by_index { (before : List ℕ) → ReaderOf before reader families.now → result ≡ refusal (fit_rules before depth label) }
    ensures depth_fits { result ≡ 0 → DepthFits reader.nodes reader.deeper depth × (label ≤ 999) }
{
    if !depth_fits(reader.nodes, reader.deeper, depth) {
        return refusal::DEPTH;
    }
    if label == 0 || label > Pair::LABEL {
        return refusal::LABEL;
    }
    if !family_fits(table, families, depth, label) {
        return refusal::FAMILY;
    }
    0
}

// Rule 9.
pub fn room_left(reader: Reader, depth: u16) -> bool
    ensures { Tells result (RoomLeft reader.nodes reader.trees reader.in_tree depth) }
{
    if reader.nodes >= Fleet::NODES {
        return false;
    }
    if depth == 0 {
        return reader.trees < Fleet::TREES;
    }
    reader.in_tree < Fleet::TREE_NODES
}

// The number of the first of the rules 5, 6, 7 and 9 that a node breaks, 0 if it breaks none. Callers lend `family_table`.
pub fn broken(
    table: &[[u8; 10]; 10],
    reader: Reader,
    families: &[u8; 16],
    depth: u16,
    label: u16,
) -> u8
    requires { table.now ≡ marks }
    ensures by_index { (before : List ℕ) → ReaderOf before reader families.now → result ≡ refusal (node_rules before depth label) }
    ensures may_come { result ≡ 0 → MayCome reader depth label }
{
    let number = unfit(table, reader, families, depth, label);
    if number > 0 {
        return number;
    }
    if !room_left(reader, depth) {
        return refusal::FLEET_LIMIT;
    }
    0
}
