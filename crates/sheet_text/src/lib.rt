// A text of a fleet parsed: a line for each vehicle's tree, its pairs as in the list (`0.101 1.201 2.301`); blank lines, and comments from
// `#` on.
#![tactic(auto)]

ghost use Rattle.std.specs.Prelude.{◌≡◌, ◌+◌};
ghost use Rattle.sheet_text.specs.TextReading.{most_text_bytes, parse_answer, parse_output};

mod parsing; // parsing.rt: the two passes of `parse`

// The most bytes of a text.
pub const TEXT: usize = 65536;

// The bytes that tell what any text says: one more than a text has at most.
pub const INPUT: usize = TEXT + 1;

// Ties the constant to the definition.
pub fn stated_input() -> usize
    ensures { result ≡ most_text_bytes + 1 }
{
    INPUT
}

// The causes that no rule of a sheet names.
pub const NO_PAIR: u8 = 0;

pub const TOO_LONG: u8 = 255;

// How many pairs a text has; or the number of the first wrong line, from 1, and the cause: the refusal of the node that the sheet would
// give, or one of the two above; or line 0 and the refusal of a memory too short.
#[derive(Clone, Copy)]
pub enum Parsed {
    Pairs(usize),
    Refused(usize, u8),
}

// The pairs of a text, put at the front of the memory; or where it goes wrong, and the memory is as it was.
pub fn parse(text: &[u8], pairs: &mut [u16]) -> Parsed
    ensures value { result ≡ parse_answer text.now pairs.old }
    ensures pairs_after { pairs.new ≡ parse_output text.now pairs.old }
{
    let counted = parsing::count(text);
    match counted {
        Parsed::Refused(line, cause) => Parsed::Refused(line, cause),
        Parsed::Pairs(nodes) => {
            if pairs.len() < nodes {
                return Parsed::Refused(0, fleet::refusal::SHORT_OUTPUT);
            }
            parsing::fill(text, pairs);
            Parsed::Pairs(nodes)
        }
    }
}
