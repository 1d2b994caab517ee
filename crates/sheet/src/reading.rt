// The two passes of a reading: count the nodes, then fill the output.

ghost use Rattle.std.specs.Prelude.{◌≡◌, ◌++◌, ◌≤◌, length, drop};
ghost use Rattle.sheet.specs.Reading.{accepted, reading, pairs_said, count_answer};

use fleet::reader::Reader;
use fleet::{Answer, Pair, reader, refusal, rules};
use record;

// The number of nodes of a sheet, or the number of its refusal.
pub fn count(sheet: &[u8]) -> Answer
    ensures { result ≡ count_answer (reading sheet.now) }
{
    let table = rules::family_table();
    let mut at = 0;
    let mut reader = Reader::new();
    let mut families = [0u8; 16];
    while at < sheet.len() {
        let judged = record::judge(&table, sheet, at, reader, &families);
        if judged.number > 0 {
            return Answer::Refused(judged.number);
        }
        reader = reader.after(judged.depth, judged.label);
        reader::note_family(&mut families, judged.depth, judged.label);
        at = judged.next;
    }
    if reader.nodes == 0 {
        return Answer::Refused(refusal::NO_BYTES);
    }
    Answer::Done(reader.nodes)
}

// The pairs of an accepted sheet, put at the front of an output that is long enough: `read` has counted them, so nothing is judged again.
pub fn fill(sheet: &[u8], output: &mut [u16])
    requires { (reading sheet.now ≡ accepted (pairs_said (reading sheet.now))) × (length (pairs_said (reading sheet.now)) ≤ length output.old) }
    ensures { output.new ≡ pairs_said (reading sheet.now) ++ drop (length (pairs_said (reading sheet.now))) output.old }
{
    let mut at = 0;
    let mut deeper = 1;
    let mut label = 0;
    let mut i = 0;
    while at < sheet.len() {
        let fields = record::read_fields(sheet, at, deeper, label);
        output[i] = Pair::UNIT * fields.depth + fields.label;
        deeper = fields.depth + 1;
        label = fields.label;
        at = fields.next;
        i += 1;
    }
}
