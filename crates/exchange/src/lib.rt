// Two neighbouring stretches of pairs exchanged in place (a rotation, by three reversals). By hand: std's `rotate_left` has an array on the stack, of
// which the form is to take none, and its `reverse` is slower for few pairs (measured), as most stretches have.
#![tactic(auto)]

ghost use Rattle.std.specs.Prelude.{◌+◌, ◌≤◌, ◌<◌, length};
ghost use Rattle.exchange.specs.Exchange.{Reversed, Exchanged};

// Reverses the pairs from a to b.
fn reverse(s: &mut [u16], a: usize, b: usize)
    requires { (a ≤ b) × (b ≤ length s.old) }
    ensures { Reversed s.old s.new a b }
{
    let mut x = a;
    let mut y = b;
    while x + 1 < y {
        y -= 1;
        let first = s[x];
        s[x] = s[y];
        s[y] = first;
        x += 1;
    }
}

// Exchanges the pair at a with those from a + 1 to c.
fn shift(s: &mut [u16], a: usize, c: usize)
    requires { (a < c) × (c ≤ length s.old) }
    ensures { Exchanged s.old s.new a (a + 1) c }
{
    let first = s[a];
    for k in a + 1..c {
        s[k - 1] = s[k];
    }
    s[c - 1] = first;
}

// Exchanges the pairs from a to b with the pair at b.
fn shift_back(s: &mut [u16], a: usize, b: usize)
    requires { (a ≤ b) × (b < length s.old) }
    ensures { Exchanged s.old s.new a b (b + 1) }
{
    let last = s[b];
    for k in (a..b).rev() {
        s[k + 1] = s[k];
    }
    s[a] = last;
}

// Exchanges the pairs from a to b with those from b to c. A single pair goes the shorter way.
pub fn exchange(s: &mut [u16], a: usize, b: usize, c: usize)
    requires { (a ≤ b) × (b ≤ c) × (c ≤ length s.old) }
    ensures { Exchanged s.old s.new a b c }
{
    if b == c {
        return;
    }
    if b == a + 1 {
        shift(s, a, c);
        return;
    }
    if c == b + 1 {
        shift_back(s, a, b);
        return;
    }
    reverse(s, a, b);
    reverse(s, b, c);
    reverse(s, a, c);
}
