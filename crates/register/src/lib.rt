// The label register of a fleet: for each label how many nodes have it, and which vehicles hold it. Document 02, "a label register beside the fleet".
#![tactic(auto)]

ghost use Rattle.std.specs.Prelude.{◌≡◌};
ghost use Rattle.terms.specs.Tells.{decided};
ghost use Rattle.terms.specs.Fleet.{IsFleet};
ghost use Rattle.register.specs.Register.{most_label, register?};
ghost use Rattle.register.specs.RegisterCall.{register_answer, nodes_output, holders_output};

use fleet::{Answer, Pair, refusal};

pub mod trees; // trees.rt: a register kept tree by tree

// The entries of a register: one for each label.
pub const LABELS: usize = Pair::LABEL as usize;

// Ties the constant to the definition.
pub fn stated_labels() -> usize
    ensures { result ≡ most_label }
{
    LABELS
}

// Makes the register of a fleet: for each label, rising, the number of its nodes and the set of vehicles that hold it.
pub fn register(fleet: &[u16], nodes: &mut [u16], holders: &mut [u64]) -> Answer
    ensures value { result ≡ register_answer fleet.now nodes.old holders.old }
    ensures nodes_after { nodes.new ≡ nodes_output fleet.now nodes.old holders.old }
    ensures holders_after { holders.new ≡ holders_output fleet.now nodes.old holders.old }
{
    if !fleet::is_fleet(fleet) {
        return Answer::Refused(refusal::NO_FLEET);
    }
    if nodes.len() < LABELS {
        return Answer::Refused(refusal::SHORT_OUTPUT);
    }
    if holders.len() < LABELS {
        return Answer::Refused(refusal::SHORT_OUTPUT);
    }
    trees::clear(nodes, holders);
    trees::add_all(fleet, nodes, holders);
    Answer::Done(LABELS)
}

// Whether the register is this fleet's, whose pairs the caller has shown to be one. It is made again and compared.
pub fn is_register(fleet: &[u16], nodes: &[u16], holders: &[u64]) -> bool
    requires { IsFleet fleet.now }
    ensures { result ≡ decided (register? fleet.now nodes.now holders.now) }
{
    let mut made_nodes = [0u16; LABELS];
    let mut made_holders = [0u64; LABELS];
    trees::add_all(fleet, &mut made_nodes, &mut made_holders);
    nodes.starts_with(&made_nodes) && holders.starts_with(&made_holders)
}
