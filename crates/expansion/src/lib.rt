// Rightmost expansion: for a beginning of a pattern the places of its last node, and the supports of all forms that go on with one pair more,
// kept in tables from beginning to beginning. What the listing needs of occurrence; placings are not looked for, they are counted.
#![tactic(auto)]

pub mod levels; // levels.rt: the tables of a pattern, level by level
pub mod tables; // tables.rt: the tables of a pattern, made from level to level
