// One record of a sheet, read and judged. Document 01, "The sheet".
#![tactic(auto)]

ghost use Rattle.std.specs.Prelude.{◌≡◌, List, ℕ, ◌+◌, ◌*◌, ◌/◌, ◌%◌, ◌≤◌, ◌<◌, length, get_or};
ghost use Rattle.terms.specs.Fleet.{marks};
ghost use Rattle.terms.specs.Refusal.{refusal};
ghost use Rattle.terms.specs.Tells.{Tells};
ghost use Rattle.fleet.specs.Numbers.{MayCome};
ghost use Rattle.fleet.specs.Reader.{ReaderOf};
ghost use Rattle.record.specs.Record.{field_bytes, field_or};
ghost use Rattle.record.specs.NextRecord.{said_rules};
ghost use Rattle.record.specs.Judging.{FieldsNeeded, FieldsAt, JudgedAt};

use fleet::reader::Reader;
use fleet::{refusal, rules};

fn wide(x: u8) -> u16
    ensures { result ≡ x }
{
    x as u16
}

// The depth that a record says: its field at position `i`, or what the absence of the field means.
fn depth_field(sheet: &[u8], i: usize, bits: u8, absent: u16) -> u16
    requires { bits % 2 ≡ 1 → i < length sheet.now }
    ensures { result ≡ field_or (bits % 2) (get_or sheet.now i 0) absent }
{
    if bits % 2 == 1 {
        return wide(sheet[i]);
    }
    absent
}

// The label that a record says, in the same way.
fn label_field(sheet: &[u8], i: usize, bits: u8, absent: u16) -> u16
    requires { bits / 2 % 2 ≡ 1 → i + 1 < length sheet.now }
    ensures { result ≡ field_or (bits / 2 % 2) (get_or sheet.now i 0 + 256 * get_or sheet.now (i + 1) 0) absent }
{
    if bits / 2 % 2 == 1 {
        let low = wide(sheet[i]);
        let high = wide(sheet[i + 1]);
        return low + 256 * high;
    }
    absent
}

// How many bytes the fields have.
fn field_bytes(bits: u8) -> usize
    ensures { result ≡ field_bytes bits }
{
    (bits % 2) as usize + 2 * ((bits / 2 % 2) as usize)
}

// What a record says, and the position after it.
#[derive(Clone, Copy)]
pub struct Fields {
    pub depth: u16,
    pub label: u16,
    pub next: usize,
}

// What the record at a position says, where `deeper` and `last` are the depth and the label that absence means. Its callers know that the
// record is not cut.
pub fn read_fields(sheet: &[u8], at: usize, deeper: u16, last: u16) -> Fields
    requires { at + 1 + field_bytes (get_or sheet.now at 0) ≤ length sheet.now }
    ensures { FieldsAt sheet.now at deeper last result }
{
    let bits = sheet[at];
    let depth_bytes = (bits % 2) as usize;
    Fields {
        depth: depth_field(sheet, at + 1, bits, deeper),
        label: label_field(sheet, at + 1 + depth_bytes, bits, last),
        next: at + 1 + field_bytes(bits),
    }
}

// Rule 8.
fn fields_needed(reader: Reader, bits: u8, depth: u16, label: u16) -> bool
    ensures { Tells result (FieldsNeeded reader.nodes reader.deeper reader.label bits depth label) }
{
    if reader.nodes == 0 {
        return true;
    }
    if bits % 2 == 1 {
        if depth == reader.deeper {
            return false;
        }
    }
    if bits / 2 % 2 == 1 {
        return label != reader.label;
    }
    true
}

// The number of the first of the rules 5 to 9 that a record breaks which says this node; 0 if it breaks none.
fn broken(
    table: &[[u8; 10]; 10],
    reader: Reader,
    families: &[u8; 16],
    bits: u8,
    depth: u16,
    label: u16,
) -> u8
    requires { table.now ≡ marks }
    ensures by_index { (before : List ℕ) → ReaderOf before reader families.now → result ≡ refusal (said_rules before bits depth label) }
    ensures may_come { result ≡ 0 → MayCome reader depth label }
{
    let number = rules::unfit(table, reader, families, depth, label);
    if number > 0 {
        return number;
    }
    if !fields_needed(reader, bits, depth, label) {
        return refusal::NEEDLESS_FIELD;
    }
    if !rules::room_left(reader, depth) {
        return refusal::FLEET_LIMIT;
    }
    0
}

// What a record is judged to be: the number of the rule that it breaks; or 0, its node, and the position after it.
#[derive(Clone, Copy)]
pub struct Judged {
    pub number: u8,
    pub depth: u16,
    pub label: u16,
    pub next: usize,
}

fn refused(number: u8, at: usize) -> Judged
    ensures { result.number ≡ number }
{
    Judged {
        number: number,
        depth: 0,
        label: 0,
        next: at,
    }
}

// The record at a position, by the rules 2 to 9. Its callers stand within the sheet and lend `rules::family_table`.
pub fn judge(
    table: &[[u8; 10]; 10],
    sheet: &[u8],
    at: usize,
    reader: Reader,
    families: &[u8; 16],
) -> Judged
    requires { (table.now ≡ marks) × (at < length sheet.now) }
    ensures { JudgedAt sheet.now at reader families.now result }
{
    let bits = sheet[at];
    if bits > 3 {
        return refused(refusal::HIGH_BIT, at);
    }
    if reader.nodes == 0 {
        if bits != 3 {
            return refused(refusal::FIRST_FIELDS, at);
        }
    }
    if sheet.len() - at - 1 < field_bytes(bits) {
        return refused(refusal::CUT_RECORD, at);
    }
    let fields = read_fields(sheet, at, reader.deeper, reader.label);
    Judged {
        number: broken(table, reader, families, bits, fields.depth, fields.label),
        depth: fields.depth,
        label: fields.label,
        next: fields.next,
    }
}
