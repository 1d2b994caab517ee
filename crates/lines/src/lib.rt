// The lines of the key program (document 01, under "The list").
#![tactic(auto)]

ghost use Rattle.std.specs.Prelude.{◌≡◌, take};
ghost use Rattle.text.specs.Building.{Put};
ghost use Rattle.lines.specs.Lines.{form_line, refusal_line, end_line, most_line_pairs, most_line_bytes};

// The most digits of a number.
const DIGITS: usize = 20;

// The most bytes of a pair: a depth of two digits, the full stop, three label digits.
const PAIR_BYTES: usize = 6;

// The most pairs of a line: those of the largest pattern.
pub const LINE_PAIRS: usize = 16;

// The most bytes of a line: a number, the pairs, each after a blank, and the line end.
pub const LINE: usize = DIGITS + LINE_PAIRS * (1 + PAIR_BYTES) + 1;

// Ties the constant to the definition.
pub fn stated_line() -> usize
    ensures { result ≡ most_line_bytes }
{
    LINE
}

// The line of a form with its support: of as many of its pairs as a line has room for, which is all of a pattern's. Its bytes stand in front of
// the lent line, and the answer says how many they are.
pub fn form_line(held: usize, form: &[u16], line: &mut [u8; LINE]) -> usize
    ensures { Put line.old 0 (form_line held (take most_line_pairs form.now)) line.new result }
{
    let mut len = text::put_number(held, line, 0);
    let shown = form.len().min(LINE_PAIRS);
    for &pair in &form[..shown] {
        let next = text::put_byte(b' ', line, len);
        len = text::put_pair(pair, line, next);
    }
    text::put_byte(b'\n', line, len)
}

// The line of a refusal.
pub fn refusal_line(number: u8, line: &mut [u8; LINE]) -> usize
    ensures { Put line.old 0 (refusal_line number) line.new result }
{
    let word = text::put_bytes(b"refused ", line, 0);
    let numbered = text::put_number(number as usize, line, word);
    text::put_byte(b'\n', line, numbered)
}

// The last line of a list.
pub fn end_line(line: &mut [u8; LINE]) -> usize
    ensures { Put line.old 0 end_line line.new result }
{
    text::put_bytes(b"end\n", line, 0)
}
