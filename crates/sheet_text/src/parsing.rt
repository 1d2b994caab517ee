// The two passes of a parsing: count the pairs, then put them.
ghost use Rattle.std.specs.Prelude.{◌≡◌, List, ℕ, length};
ghost use Rattle.terms.specs.Tells.{Tells};
ghost use Rattle.fleet.specs.Reader.{StateOf};
ghost use Rattle.sheet_text.specs.TextReading.{RootFirst, JoinedLine, TextFits, at_end, text_reading, answer_of, memory_of};

use crate::Parsed;
use fleet::{Joining, State};
use token::Token;

// A line is one tree: its first pair, and no other, is a root.
fn root_first(first: bool, depth: u16) -> bool
    ensures { Tells result (RootFirst first depth) }
{
    if depth == 0 {
        return first;
    }
    !first
}

// A pair of a line joins those of the state, if it breaks no rule.
fn join(state: State, first: bool, depth: u16, label: u16) -> Joining
    ensures { (before : List ℕ) → StateOf before state → JoinedLine before first depth label result }
{
    if root_first(first, depth) {
        return state.join(depth, label);
    }
    Joining {
        refusal: fleet::refusal::DEPTH,
        state: state,
    }
}

// What a text of so many pairs and lines says.
fn ended(line: usize, nodes: usize) -> Parsed
    ensures { (before : List ℕ) → length before ≡ nodes → result ≡ answer_of (at_end line before) }
{
    if nodes == 0 {
        return Parsed::Refused(line, fleet::refusal::NO_BYTES);
    }
    Parsed::Pairs(nodes)
}

// The number of pairs of a text, or where it goes wrong.
pub fn count(text: &[u8]) -> Parsed
    ensures { result ≡ answer_of (text_reading text.now) }
{
    if text.len() > crate::TEXT {
        return Parsed::Refused(1, crate::TOO_LONG);
    }
    let mut at = 0;
    let mut line: usize = 1;
    let mut first = true;
    let mut nodes: usize = 0;
    let mut state = State::new();
    loop {
        let token = token::token_at(text, at);
        match token {
            Token::End => {
                return ended(line, nodes);
            }
            Token::Wrong => {
                return Parsed::Refused(line, crate::NO_PAIR);
            }
            Token::LineEnd(next) => {
                at = next;
                line += 1;
                first = true;
            }
            Token::Pair(depth, label, next) => {
                let joining = join(state, first, depth, label);
                let number = joining.refusal;
                if number > 0 {
                    return Parsed::Refused(line, number);
                }
                nodes += 1;
                at = next;
                first = false;
                let joined = joining.state;
                state = joined;
            }
        }
    }
}

// The pairs of a text that says these, put at the front of a memory that is long enough: `parse` has counted them, so nothing is judged
// again.
pub fn fill(text: &[u8], pairs: &mut [u16])
    requires { TextFits text.now pairs.old }
    ensures { pairs.new ≡ memory_of (text_reading text.now) pairs.old }
{
    let mut at = 0;
    let mut nodes: usize = 0;
    loop {
        let token = token::token_at(text, at);
        match token {
            Token::Pair(depth, label, next) => {
                pairs[nodes] = fleet::Pair::UNIT * depth + label;
                nodes += 1;
                at = next;
            }
            Token::LineEnd(next) => {
                at = next;
            }
            Token::End => {
                return;
            }
            Token::Wrong => {
                return;
            }
        }
    }
}
