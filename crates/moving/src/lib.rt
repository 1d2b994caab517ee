// Pairs replaced within a buffer: those behind them move along. For the swap of a vehicle's tree.
#![tactic(auto)]

ghost use Rattle.std.specs.Prelude.{◌≡◌, ◌≤◌};
ghost use Rattle.moving.specs.Moving.{MoveInput, ReplaceInput, moved, spliced};

use tree;

// Moves pairs towards the front: the first goes first, so that none is written over before it is read. By hand, as is `move_up`: std's `copy_within`
// needs `memmove`, and the library for C is to need only `memcpy` and `memset` from outside (docs/LINKING.md).
fn move_down(buffer: &mut [u16], from: usize, to: usize, count: usize)
    requires { MoveInput buffer.old from to count × (to ≤ from) }
    ensures { buffer.new ≡ moved buffer.old from to count }
{
    for i in 0..count {
        buffer[to + i] = buffer[from + i];
    }
}

// Moves pairs towards the end: the last goes first.
fn move_up(buffer: &mut [u16], from: usize, to: usize, count: usize)
    requires { MoveInput buffer.old from to count × (from ≤ to) }
    ensures { buffer.new ≡ moved buffer.old from to count }
{
    for i in (0..count).rev() {
        buffer[to + i] = buffer[from + i];
    }
}

// Moves `count` pairs from one position to another.
fn move_pairs(buffer: &mut [u16], from: usize, to: usize, count: usize)
    requires { MoveInput buffer.old from to count }
    ensures { buffer.new ≡ moved buffer.old from to count }
{
    if to < from {
        move_down(buffer, from, to, count);
        return;
    }
    move_up(buffer, from, to, count);
}

// Replaces the pairs from one position to before another, in a buffer of which so many are used: those behind them move along.
pub fn replace(buffer: &mut [u16], used: usize, from: usize, to: usize, pairs: &[u16])
    requires { ReplaceInput buffer.old used from to pairs.now }
    ensures { buffer.new ≡ spliced buffer.old used from to pairs.now }
{
    move_pairs(buffer, to, from + pairs.len(), used - to);
    tree::copy(pairs, &mut buffer[from..]);
}
