// The input of the programs that list: the bytes of a header, then the sheet.
#![tactic(auto)]

ghost use Rattle.std.specs.Prelude.{◌≡◌};
ghost use Rattle.header.specs.Header.{byte, sheet_behind};

use fleet::Fleet;

// A byte of the input; a missing one counts as 0.
pub fn byte_at(input: &[u8], i: usize) -> u8
    ensures { result ≡ byte input.now i }
{
    input.get(i).copied().unwrap_or(0)
}

// The sheet behind a header of so many bytes: what is kept of all that follows.
pub fn sheet_behind(input: &[u8], header: usize) -> &[u8]
    ensures { result.now ≡ sheet_behind header input.now }
{
    let rest = &input[header.min(input.len())..];
    &rest[..rest.len().min(Fleet::SHEET)]
}
