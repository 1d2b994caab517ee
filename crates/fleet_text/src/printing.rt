// The two passes of a printing: count the bytes, then put them.
ghost use Rattle.std.specs.Prelude.{◌≡◌, ◌++◌, ◌+◌, ◌≤◌, ◌<◌, length, drop};
ghost use Rattle.terms.specs.Fleet.{IsFleet};
ghost use Rattle.text.specs.Text.{pair_text};
ghost use Rattle.text.specs.Building.{most_pair_bytes, Put};
ghost use Rattle.fleet_text.specs.FleetText.{is_first, fleet_piece, fleet_text};

// The number of bytes of a pair: a depth of one digit or of two, the full stop, three label digits.
fn pair_size(x: u16) -> usize
    ensures { (result ≡ length (pair_text x)) × (result ≤ most_pair_bytes) }
{
    if x < 10 * fleet::Pair::UNIT { 5 } else { 6 }
}

// The number of bytes of the text: those of each pair, and the one that parts it from the next or ends the text.
pub fn size(pairs: &[u16]) -> usize
    requires { IsFleet pairs.now }
    ensures { result ≡ length (fleet_text pairs.now) }
{
    let mut size = 0;
    for &pair in pairs {
        size += pair_size(pair) + 1;
    }
    size
}

// A pair with so many before it, put at a position behind what parts it from the one before: a line end before a root, else a blank. The
// position behind it.
fn put_piece(before: usize, x: u16, output: &mut [u8], at: usize) -> usize
    requires { at + length (fleet_piece (is_first before) x) < length output.old }
    ensures { Put output.old at (fleet_piece (is_first before) x) output.new result }
{
    if before == 0 {
        return text::put_pair(x, output, at);
    }
    let parting = if x < fleet::Pair::UNIT { b'\n' } else { b' ' };
    let parted = text::put_byte(parting, output, at);
    text::put_pair(x, output, parted)
}

// The text of pairs, put at the front of an output that is long enough.
pub fn fill(pairs: &[u16], output: &mut [u8])
    requires { length (fleet_text pairs.now) ≤ length output.old }
    ensures { output.new ≡ fleet_text pairs.now ++ drop (length (fleet_text pairs.now)) output.old }
{
    let mut at = 0;
    for (before, &pair) in pairs.iter().enumerate() {
        at = put_piece(before, pair, output, at);
    }
    output[at] = b'\n';
}
