// A walker over a lent sheet: it hands out one record a call. Each function is thin: it takes the struct apart and calls another.
// `sheet::record_at` is the same with plain parameters, for all other callers.
#![tactic(auto)]

ghost use Rattle.std.specs.Prelude.{◌≡◌, drop};
ghost use Rattle.walker.specs.Walker.{remain, IsFirst, Handed};

use fleet::State;
use sheet::RecordAnswer;

// The lent sheet, the position of the record that comes next, and what is kept of the nodes before it. The fields are private, so every
// walker outside this crate comes from `new` and `next`.
#[derive(Clone, Copy)]
pub struct Walker<'a> {
    sheet: &'a [u8],
    at: usize,
    state: State,
}

// What a call hands out, and the walker after it.
#[derive(Clone, Copy)]
pub struct Stepped<'a> {
    pub answer: RecordAnswer,
    pub walker: Walker<'a>,
}

// The bytes of a sheet from a position on.
fn bytes_from(sheet: &[u8], at: usize) -> &[u8]
    ensures { result.now ≡ drop at sheet.now }
{
    if at > sheet.len() {
        return &sheet[0..0];
    }
    &sheet[at..]
}

impl<'a> Walker<'a> {
    // At the first record.
    pub fn new(sheet: &'a [u8]) -> Walker<'a>
        ensures { IsFirst sheet.entry result }
    {
        Walker {
            sheet: sheet,
            at: 0,
            state: State::new(),
        }
    }

    // The next record, or end, or the number of its refusal; at these two the walker stays as it is.
    pub fn next(self) -> Stepped<'a>
        ensures { Handed self.entry result }
    {
        let step = sheet::record_at(self.sheet, self.at, self.state);
        Stepped {
            answer: step.answer,
            walker: Walker {
                sheet: self.sheet,
                at: step.next,
                state: step.state,
            },
        }
    }

    // The bytes that remain.
    pub fn remaining(self) -> &'a [u8]
        ensures { result.now ≡ remain self.entry }
    {
        bytes_from(self.sheet, self.at)
    }
}
