// The places of a list in groups, those of one parent together: the groups are kept whose parent has enough children like them.
#![tactic(auto)]

ghost use Rattle.std.specs.Prelude.{◌≤◌, ◌<◌, ◌%◌, length, get_or};
ghost use Rattle.std.proofs.Math.Seq.{slice};
ghost use Rattle.terms.specs.Tells.{Tells};
ghost use Rattle.terms.specs.Fleet.{most_nodes};
ghost use Rattle.rightmost.specs.Ends.{children};
ghost use Rattle.groups.specs.Putting.{PutBehind};
ghost use Rattle.groups.specs.Groups.{PartInput, GroupWithin, Group, GroupsInput, KeepInput, NoRoot, GroupsPut};

use fleet::Fleet;
use index;
use tree;

// Where the places end that have the parent of the place `first`: behind `low`, which has it, and at `high`, which has not, or where the list
// ends. By halves: they stand in a row. (partition_point would ask for a parent of every u16, and there are no more than NODES of them.)
fn halve(
    parents: &[u16; Fleet::NODES],
    places: &[u16],
    first: usize,
    low: usize,
    high: usize,
) -> usize
    requires { GroupWithin parents.now places.now first low high }
    ensures { Group parents.now places.now first result }
{
    let parent = parents[places[first] as usize];
    let mut inside = low;
    let mut end = high;
    while end - inside > 1 {
        let middle = inside + (end - inside) / 2;
        if parents[places[middle] as usize] == parent {
            inside = middle;
        } else {
            end = middle;
        }
    }
    end
}

// The same from nothing, by steps that double: most such groups are small, some are large.
fn group_end(parents: &[u16; Fleet::NODES], places: &[u16], first: usize) -> usize
    requires { GroupsInput parents.now places.now × (first < length places.now) }
    ensures { Group parents.now places.now first result }
{
    let parent = parents[places[first] as usize];
    let mut low = first;
    let mut high = first + 1;
    while high < places.len() {
        if parents[places[high] as usize] != parent {
            return halve(parents, places, first, low, high);
        }
        low = high;
        high += high - first;
    }
    halve(parents, places, first, low, places.len())
}

// Puts the places from `first` to before `end` behind the first `len` of `list`; the answer is where they end.
fn put_part(places: &[u16], first: usize, end: usize, list: &mut [u16], len: usize) -> usize
    requires { PartInput places.now first end list.old len }
    ensures { PutBehind list.old len (slice first end places.now) list.new result }
{
    let to = len + (end - first);
    tree::copy(&places[first..end], &mut list[len..to]);
    to
}

// Whether more children of its parent than so many are like the node, itself counted. The caller shows that it is no root.
fn more_siblings(
    fleet: &[u16],
    parents: &[u16; Fleet::NODES],
    sizes: &[u8; Fleet::NODES],
    node: usize,
    than: usize,
) -> bool
    requires { NoRoot fleet.now parents.now sizes.now node }
    ensures { Tells result (than < children fleet.now (get_or parents.now node 0) (get_or fleet.now node 0 % 1000)) }
{
    index::has_more_children(fleet, sizes, parents[node] as usize, fleet[node], than)
}

// Keeps the places that have more than `equal` siblings like them, themselves counted. They are put at the front of `new`; the answer is how
// many they are.
pub fn keep_groups(
    equal: usize,
    fleet: &[u16],
    parents: &[u16; Fleet::NODES],
    sizes: &[u8; Fleet::NODES],
    old: &[u16],
    new: &mut [u16],
) -> usize
    requires { KeepInput fleet.now parents.now sizes.now old.now × (most_nodes ≤ length new.old) }
    ensures { GroupsPut fleet.now parents.now old.now equal new.old new.new result }
{
    let mut len = 0;
    let mut i = 0;
    while i < old.len() {
        let end = group_end(parents, old, i);
        if more_siblings(fleet, parents, sizes, old[i] as usize, equal) {
            len = put_part(old, i, end, new, len);
        }
        i = end;
    }
    len
}
