// Numbers and pairs as text, put in lent memory at a position (document 01, the key program under "The list").
#![tactic(auto)]

ghost use Rattle.std.specs.Prelude.{[], ◌∷◌, ◌+◌, ◌≤◌, ◌<◌, length};
ghost use Rattle.text.specs.Text.{decimal, pair_text};
ghost use Rattle.text.specs.Building.{most_pair_bytes, Put};

// A byte at a position of a line; the position behind it. The caller shows that there is room, here and below.
pub fn put_byte(byte: u8, line: &mut [u8], at: usize) -> usize
    requires { at < length line.old }
    ensures { Put line.old at (byte ∷ []) line.new result }
{
    line[at] = byte;
    at + 1
}

// A fixed byte string.
pub fn put_bytes(s: &[u8], line: &mut [u8], at: usize) -> usize
    requires { at + length s.now ≤ length line.old }
    ensures { Put line.old at s.now line.new result }
{
    let end = at + s.len();
    line[at..end].copy_from_slice(s);
    end
}

// A number: the digits before the last, if there are any, then the last. Not by `write!`: that answers a Result, where the caller has shown
// that there is room, and not where the digits end.
pub fn put_number(n: usize, line: &mut [u8], at: usize) -> usize
    requires { at + length (decimal n) ≤ length line.old }
    ensures { Put line.old at (decimal n) line.new result }
{
    if n < 10 {
        return put_byte(b'0' + n as u8, line, at);
    }
    let last = put_number(n / 10, line, at);
    put_byte(b'0' + (n % 10) as u8, line, last)
}

// A pair.
pub fn put_pair(x: u16, line: &mut [u8], at: usize) -> usize
    requires { at + most_pair_bytes ≤ length line.old }
    ensures put { Put line.old at (pair_text x) line.new result }
    ensures upper_bound { result ≤ at + most_pair_bytes }
{
    let label = x % fleet::Pair::UNIT;
    let digits = [
        b'.',
        b'0' + (label / 100) as u8,
        b'0' + (label / 10 % 10) as u8,
        b'0' + (label % 10) as u8,
    ];
    let stop = put_number((x / fleet::Pair::UNIT) as usize, line, at);
    put_bytes(&digits, line, stop)
}
