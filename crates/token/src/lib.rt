// The tokens of a text of a fleet.
#![tactic(auto)]

ghost use Rattle.std.specs.Prelude.{◌≡◌, ◌+◌, ◌≤◌, ◌<◌, length, get_or, drop};
ghost use Rattle.terms.specs.Tells.{Tells};
ghost use Rattle.token.specs.Token as grammar;
ghost use Rattle.token.specs.Token.{IsBlank, IsDigit, EndsPair, IsLabel, front_of, Ahead};

// What stands at a position: a pair's depth and label, or the end of a line, with the position after it; the end of the text; or something
// else.
#[derive(Clone, Copy)]
pub enum Token {
    Pair(u16, u16, usize),
    LineEnd(usize),
    End,
    Wrong,
}

fn is_blank(b: u8) -> bool
    ensures { Tells result (IsBlank b) }
{
    matches!(b, b' ' | b'\t' | b'\r')
}

fn is_digit(b: u8) -> bool
    ensures { Tells result (IsDigit b) }
{
    b.is_ascii_digit()
}

fn value(digit: u8) -> u16
    requires { IsDigit digit }
    ensures { (result ≡ grammar.value digit) × (result ≤ 9) }
{
    u16::from(digit - b'0')
}

// The position of the first byte that is no blank, or the end of the text.
fn skip_blanks(text: &[u8], at: usize) -> usize
    requires { at ≤ length text.now }
    ensures lower_bound { (at ≤ result) × (result ≤ length text.now) }
    ensures text_value { drop result text.now ≡ grammar.after_blanks (drop at text.now) }
{
    let rest = &text[at..];
    at + rest
        .iter()
        .position(|b| !is_blank(*b))
        .unwrap_or(rest.len())
}

// The position of the next line end, or the end of the text.
fn skip_comment(text: &[u8], at: usize) -> usize
    requires { at ≤ length text.now }
    ensures lower_bound { (at ≤ result) × (result ≤ length text.now) }
    ensures text_value { drop result text.now ≡ grammar.after_comment (drop at text.now) }
{
    let rest = &text[at..];
    at + rest.iter().position(|b| *b == b'\n').unwrap_or(rest.len())
}

// Whether a pair may end at a position.
fn ends_pair(text: &[u8], at: usize) -> bool
    ensures { Tells result (EndsPair (drop at text.now)) }
{
    let Some(&b) = text.get(at) else {
        return true;
    };
    b == b'\n' || b == b'#' || is_blank(b)
}

// Whether a full stop and three digits stand at a position that has four bytes, and a pair may end behind them.
fn is_label(text: &[u8], at: usize) -> bool
    requires { at + 4 ≤ length text.now }
    ensures { Tells result (IsLabel (get_or text.now at 0) (get_or text.now (at + 1) 0) (get_or text.now (at + 2) 0) (get_or text.now (at + 3) 0) (drop (at + 4) text.now)) }
{
    text[at] == b'.'
        && is_digit(text[at + 1])
        && is_digit(text[at + 2])
        && is_digit(text[at + 3])
        && ends_pair(text, at + 4)
}

// The pair whose depth stands before the position.
fn label_at(text: &[u8], at: usize, depth: u16) -> Token
    requires { at ≤ length text.now }
    ensures text_value { front_of result text.now ≡ grammar.label_front depth (drop at text.now) }
    ensures ahead { Ahead result at (length text.now) }
{
    if text.len() - at < 4 || !is_label(text, at) {
        return Token::Wrong;
    }
    let label = 100 * value(text[at + 1]) + 10 * value(text[at + 2]) + value(text[at + 3]);
    Token::Pair(depth, label, at + 4)
}

// The pair at a position within the text.
fn pair_at(text: &[u8], at: usize) -> Token
    requires { at < length text.now }
    ensures text_value { front_of result text.now ≡ grammar.depth_front (drop at text.now) }
    ensures ahead { Ahead result at (length text.now) }
{
    let next = at + 1;
    if next == text.len() || !is_digit(text[at]) {
        return Token::Wrong;
    }
    let first = value(text[at]);
    if !is_digit(text[next]) {
        return label_at(text, next, first);
    }
    let second = value(text[next]);
    label_at(text, next + 1, 10 * first + second)
}

// The token at a position, blanks and comments passed over.
pub fn token_at(text: &[u8], at: usize) -> Token
    requires { at ≤ length text.now }
    ensures text_value { front_of result text.now ≡ grammar.token (drop at text.now) }
    ensures ahead { Ahead result at (length text.now) }
{
    let i = skip_blanks(text, at);
    let Some(&b) = text.get(i) else {
        return Token::End;
    };
    if b == b'\n' {
        return Token::LineEnd(i + 1);
    }
    if b != b'#' {
        return pair_at(text, i);
    }
    let end = skip_comment(text, i + 1);
    if end == text.len() {
        return Token::End;
    }
    Token::LineEnd(end + 1)
}
