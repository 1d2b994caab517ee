// The places of a pattern of one node: the nodes of the fleet that have its label, in order.
#![tactic(auto)]

ghost use Rattle.std.specs.Prelude.{[], ◌∷◌, ◌+◌, ◌≤◌, length, take};
ghost use Rattle.terms.specs.Tree.{IsTree};
ghost use Rattle.terms.specs.Fleet.{IsFleet, most_nodes};
ghost use Rattle.rightmost.specs.PlaceList.{Places};
ghost use Rattle.root_places.specs.Labelled.{GroupTold, LabelledTo};

use fleet::Pair;

// Nodes that are looked at together, which a processor does many at a time.
const GROUP: usize = 16;

// Which nodes of the group that begins at `from` have the label: 0 if none has, GROUP + i if only the one i further has, and at least twice GROUP
// if more have. It is the sum of GROUP + i over those that have it.
fn labelled_of_group(fleet: &[u16], from: usize, label: u16) -> u16
    requires { from + 16 ≤ length fleet.now }
    ensures { GroupTold fleet.now label from result }
{
    let mut sum = 0;
    for (i, pair) in fleet[from..from + GROUP].iter().enumerate() {
        if *pair % Pair::UNIT == label {
            sum += (GROUP + i) as u16;
        }
    }
    sum
}

// Puts the nodes from `from` on, before `stop`, that have the label behind those before them, the first `len` of `places`; the answer is where
// they end.
fn put_labelled(
    label: u16,
    fleet: &[u16],
    from: usize,
    stop: usize,
    places: &mut [u16],
    len: usize,
) -> usize
    requires { LabelledTo label fleet.now places.old len from × (from ≤ stop) × (stop ≤ length fleet.now) }
    ensures { LabelledTo label fleet.now places.new result stop }
{
    let mut end = len;
    for node in from..stop {
        if fleet[node] % Pair::UNIT == label {
            places[end] = node as u16;
            end += 1;
        }
    }
    end
}

// The places of the pattern of one node: the nodes with its label. They are put at the front of `places`; the answer is how many they are.
pub fn place_root(label: u16, fleet: &[u16], places: &mut [u16]) -> usize
    requires { IsTree (label ∷ []) × IsFleet fleet.now × (most_nodes ≤ length places.old) }
    ensures { Places (label ∷ []) fleet.now (take result places.new) × (result ≤ length fleet.now) }
{
    let mut len = 0;
    let mut node = 0;
    while fleet.len() - node >= GROUP {
        let told = labelled_of_group(fleet, node, label);
        if told >= 2 * GROUP as u16 {
            len = put_labelled(label, fleet, node, node + GROUP, places, len);
        } else if told > 0 {
            places[len] = node as u16 + told - GROUP as u16;
            len += 1;
        }
        node += GROUP;
    }
    put_labelled(label, fleet, node, fleet.len(), places, len)
}
