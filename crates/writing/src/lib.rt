// The writing of a fleet, in two passes: count the bytes, then put the records. Document 01, "The sheet".
#![tactic(auto)]

ghost use Rattle.std.specs.Prelude.{◌≡◌, ◌++◌, ◌/◌, ◌%◌, ◌≤◌, ◌<◌, length, take, drop};
ghost use Rattle.terms.specs.Fleet.{most_nodes};
ghost use Rattle.writing.specs.Writing.{record_bytes, writing, record_behind};

use fleet::Pair;

// The bytes of one record: the first `len` of four. A Vec would take memory from the heap.
#[derive(Clone, Copy)]
struct Packed {
    bytes: [u8; 4],
    len: usize,
}

// The bits of the record of the pair x behind the pair `previous`, if there is one.
fn record_bits(previous: Option<u16>, x: u16) -> u8
    ensures { (result < 4) × (record_behind previous x ≡ record_bytes (result % 2) (result / 2) (x / 1000) (x % 1000)) }
{
    let Some(previous) = previous else {
        return 3;
    };
    let mut bits = 0;
    if x / Pair::UNIT != previous / Pair::UNIT + 1 {
        bits = 1;
    }
    if x % Pair::UNIT != previous % Pair::UNIT {
        bits += 2;
    }
    bits
}

// That record.
fn packed_record(previous: Option<u16>, x: u16) -> Packed
    ensures bytes_value { take result.len result.bytes ≡ record_behind previous x }
    ensures len_bound { (result.len ≤ 4) × (result.len ≤ length result.bytes) }
{
    let bits = record_bits(previous, x);
    let depth = (x / Pair::UNIT) as u8;
    let [low, high] = (x % Pair::UNIT).to_le_bytes();
    let label_bytes = 2 * (bits / 2) as usize;
    if bits % 2 == 1 {
        Packed {
            bytes: [bits, depth, low, high],
            len: 2 + label_bytes,
        }
    } else {
        Packed {
            bytes: [bits, low, high, 0],
            len: 1 + label_bytes,
        }
    }
}

// The number of bytes of the writing.
pub fn size(pairs: &[u16]) -> usize
    requires { length pairs.now ≤ most_nodes }
    ensures { result ≡ length (writing pairs.now) }
{
    let mut size = 0;
    let mut previous = None;
    for x in pairs {
        size += packed_record(previous, *x).len;
        previous = Some(*x);
    }
    size
}

// The writing of pairs, put at the front of an output that is long enough.
pub fn fill(pairs: &[u16], output: &mut [u8])
    requires { length (writing pairs.now) ≤ length output.old }
    ensures { output.new ≡ writing pairs.now ++ drop (length (writing pairs.now)) output.old }
{
    let mut at = 0;
    let mut previous = None;
    for x in pairs {
        let record = packed_record(previous, *x);
        let end = at + record.len;
        output[at..end].copy_from_slice(&record.bytes[..record.len]);
        at = end;
        previous = Some(*x);
    }
}
