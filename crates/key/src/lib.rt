// The input of the key program (document 01, under "The list"): what stands in front of the sheet, and the sheet. Crate opening goes on from there.
#![tactic(auto)]

ghost use Rattle.std.specs.Prelude.{◌≡◌};
ghost use Rattle.key.specs.Input.{request_by, sheet_of};

use fleet::Fleet;
use header::{byte_at, sheet_behind};
use search::Request;

// The bytes of the input that are read: threshold, size bound, and of the sheet what decides any.
pub const INPUT: usize = Fleet::SHEET + 2;

// The request of an input: its first two bytes; the list is full.
pub fn request_by(input: &[u8]) -> Request
    ensures { result ≡ request_by input.now }
{
    Request {
        threshold: byte_at(input, 0) as usize,
        bound: byte_at(input, 1) as usize,
        profile: profiles::FULL,
    }
}

// The sheet of an input: what is kept of the bytes after the first two.
pub fn sheet_in(input: &[u8]) -> &[u8]
    ensures { result.now ≡ sheet_of input.now }
{
    sheet_behind(input, 2)
}
