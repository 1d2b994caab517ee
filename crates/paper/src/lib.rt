// The lines of a form on a page (document 02), put in lent memory at a position.
#![tactic(auto)]

ghost use Rattle.std.specs.Prelude.{◌≡◌, [], ◌∷◌, ◌++◌, ℕ, ◌+◌, ◌-◌, ◌*◌, ◌≤◌, length};
ghost use Rattle.text.specs.Text.{decimal, line_end};
ghost use Rattle.text.specs.Building.{Put};
ghost use Rattle.paper.specs.Paper.{columns, page_lines, line_bytes, page_bytes, support_columns, field_columns, pairs_a_line, blanks, right_aligned, fields, first_line, second_line, form_lines, end_block, blank_lines, bytes_of};

// The columns of a line, and the lines of a page.
const COLUMNS: usize = 72;

pub const LINES: usize = 54;

// The bytes of a line, with its end, and of a page.
pub const LINE: usize = COLUMNS + 1;

pub const PAGE: usize = LINES * LINE;

// The columns of the support, and those before the first field.
const SUPPORT: usize = 2;

const INDENT: usize = SUPPORT + 1;

// The columns of a field, and the pairs of a line.
const FIELD: usize = 8;

const PAIRS: usize = 8;

// The numbers that other crates use, in one struct, for the fact that ties them to the specification. The others are in the contracts below.
#[derive(Clone, Copy)]
pub struct Numbers {
    pub line: usize,
    pub lines: usize,
    pub page: usize,
}

pub fn stated_numbers() -> Numbers
    ensures { (result.line ≡ line_bytes) × (result.lines ≡ page_lines) × (result.page ≡ page_bytes) }
{
    Numbers {
        line: LINE,
        lines: LINES,
        page: PAGE,
    }
}

// Blanks, up to a position. The caller shows that there is room, here and below.
fn put_blanks(to: usize, page: &mut [u8], at: usize) -> usize
    requires { (at ≤ to) × (to ≤ length page.old) }
    ensures put { Put page.old at (blanks (to - at)) page.new result }
    ensures value { result ≡ to }
{
    page[at..to].fill(b' ');
    to
}

// How many digits a number has.
fn digits(n: usize) -> usize
    ensures { result ≡ length (decimal n) }
{
    if n < 10 {
        return 1;
    }
    digits(n / 10) + 1
}

// The support, right-aligned in its columns.
fn put_support(held: usize, page: &mut [u8], at: usize) -> usize
    requires { (length (decimal held) ≤ support_columns) × (at + support_columns ≤ length page.old) }
    ensures put { Put page.old at (right_aligned support_columns (decimal held)) page.new result }
    ensures value { result ≡ at + support_columns }
{
    let first = put_blanks(at + (SUPPORT - digits(held)), page, at);
    text::put_number(held, page, first)
}

// Pairs in their fields.
fn put_fields(pairs: &[u16], page: &mut [u8], at: usize) -> usize
    requires { at + field_columns * length pairs.now ≤ length page.old }
    ensures put { Put page.old at (fields pairs.now) page.new result }
    ensures value { result ≡ at + field_columns * length pairs.now }
{
    let mut end = at;
    for &pair in pairs {
        let field = end + FIELD;
        let blanks = text::put_pair(pair, page, end);
        end = put_blanks(field, page, blanks);
    }
    end
}

// Blanks up to the last column of a line that begins at `start`, and the line end.
fn finish(start: usize, page: &mut [u8], at: usize) -> usize
    requires { (start ≤ at) × (at ≤ start + columns) × (start + line_bytes ≤ length page.old) }
    ensures put { Put page.old at (blanks (start + columns - at) ++ line_end ∷ []) page.new result }
    ensures value { result ≡ start + line_bytes }
{
    let wide = put_blanks(start + COLUMNS, page, at);
    text::put_byte(b'\n', page, wide)
}

// The first line of a form, of at most eight of its pairs.
fn put_first(held: usize, pairs: &[u16], page: &mut [u8], at: usize) -> usize
    requires { (length (decimal held) ≤ support_columns) × (length pairs.now ≤ pairs_a_line) × (at + line_bytes ≤ length page.old) }
    ensures put { Put page.old at (first_line held pairs.now ++ line_end ∷ []) page.new result }
    ensures value { result ≡ at + line_bytes }
{
    let support = put_support(held, page, at);
    let field = text::put_byte(b' ', page, support);
    let end = put_fields(pairs, page, field);
    finish(at, page, end)
}

// The second line, of the pairs that are left.
fn put_second(pairs: &[u16], page: &mut [u8], at: usize) -> usize
    requires { (length pairs.now ≤ pairs_a_line) × (at + line_bytes ≤ length page.old) }
    ensures put { Put page.old at (second_line pairs.now ++ line_end ∷ []) page.new result }
    ensures value { result ≡ at + line_bytes }
{
    let field = put_blanks(at + INDENT, page, at);
    let end = put_fields(pairs, page, field);
    finish(at, page, end)
}

// How many lines a form takes.
pub fn form_size(form: &[u16]) -> usize
    ensures { (held : ℕ) → result ≡ length (form_lines held form.now) }
{
    if form.len() > PAIRS { 2 } else { 1 }
}

// The lines of a form with its support; the position behind them.
pub fn put_form(held: usize, form: &[u16], page: &mut [u8], at: usize) -> usize
    requires { (length (decimal held) ≤ support_columns) × (length form.now ≤ 2 * pairs_a_line) × (at + line_bytes * length (form_lines held form.now) ≤ length page.old) }
    ensures put { Put page.old at (bytes_of (form_lines held form.now)) page.new result }
    ensures value { result ≡ at + line_bytes * length (form_lines held form.now) }
{
    if form.len() > PAIRS {
        let next = put_first(held, &form[..PAIRS], page, at);
        return put_second(&form[PAIRS..], page, next);
    }
    put_first(held, form, page, at)
}

// The line `end`.
pub fn put_end(page: &mut [u8], at: usize) -> usize
    requires { at + line_bytes ≤ length page.old }
    ensures put { Put page.old at (bytes_of end_block) page.new result }
    ensures value { result ≡ at + line_bytes }
{
    let word = text::put_bytes(b"end", page, at);
    finish(at, page, word)
}

// Blank lines.
pub fn put_blank_lines(lines: usize, page: &mut [u8], at: usize) -> usize
    requires { at + line_bytes * lines ≤ length page.old }
    ensures put { Put page.old at (bytes_of (blank_lines lines)) page.new result }
    ensures value { result ≡ at + line_bytes * lines }
{
    let mut end = at;
    for _ in 0..lines {
        end = finish(end, page, end);
    }
    end
}
