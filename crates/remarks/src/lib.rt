// Remarks (document 02, "Remarks no longer count"): whether there are any, and pairs with the remarks taken out. A list is searched for in the
// fleet without them, so no search has to look for them.
#![tactic(auto)]

ghost use Rattle.std.specs.Prelude.{◌≡◌, ◌%◌, ◌≤◌, length};
ghost use Rattle.terms.specs.Tells.{Tells};
ghost use Rattle.terms.specs.Fleet.{family};
ghost use Rattle.terms.specs.Remarks.{remark_family, HoldsRemark, without_remarks};
ghost use Rattle.remarks.specs.TakenOut.{moved_to_front, Copied};

use fleet::Pair;

// The family of remarks.
const FAMILY: u16 = 6;

// The labels of one family.
const LABELS: u16 = 100;

// Whether the pair is a remark's.
fn is_remark(pair: u16) -> bool
    ensures { Tells result (family (pair % 1000) ≡ remark_family) }
{
    pair % Pair::UNIT / LABELS == FAMILY
}

// Whether any of the pairs is a remark's. All are looked at, which a processor does many at a time: `iter().any(..)` would stop at the first.
pub fn any(pairs: &[u16]) -> bool
    ensures { Tells result (HoldsRemark pairs.now) }
{
    let mut found = false;
    for pair in pairs {
        if is_remark(*pair) {
            found = true;
        }
    }
    found
}

// Moves the pairs that are no remarks to the front, in their order; the answer is how many they are. Behind them the pairs stay as they were.
pub fn take_out(pairs: &mut [u16]) -> usize
    ensures value { result ≡ length (without_remarks pairs.old) }
    ensures pairs_after { pairs.new ≡ moved_to_front pairs.old }
{
    let mut len = 0;
    // An index: what is written lies in the slice that is read.
    for i in 0..pairs.len() {
        let pair = pairs[i];
        if !is_remark(pair) {
            pairs[len] = pair;
            len += 1;
        }
    }
    len
}

// Puts the fleet without its remarks in front of `counted`; the answer is how many nodes it has.
pub fn copy_without(fleet: &[u16], counted: &mut [u16]) -> usize
    requires { length fleet.now ≤ length counted.old }
    ensures { Copied fleet.now counted.old counted.new result }
{
    let copy = &mut counted[..fleet.len()];
    copy.copy_from_slice(fleet);
    take_out(copy)
}
