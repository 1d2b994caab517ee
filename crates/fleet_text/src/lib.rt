// The text of a fleet: a line for each vehicle's tree, its pairs as in the list (`0.101 1.201 2.301`).
#![tactic(auto)]

ghost use Rattle.std.specs.Prelude.{◌≡◌, List, ℕ, ◌≤◌, length};
ghost use Rattle.terms.specs.Fleet.{IsFleet};
ghost use Rattle.fleet_text.specs.FleetText.{fleet_text, most_fleet_text_bytes, print_answer, print_output};

use fleet::Answer;

mod printing; // printing.rt: the two passes of `print`

// The most bytes of the text of a fleet: each pair has at most six, and one that parts it from the next.
pub const FLEET_TEXT: usize = 7 * fleet::Fleet::NODES;

// Ties the constant to the definition; the text of any fleet fits.
pub fn stated_fleet_text() -> usize
    ensures value { result ≡ most_fleet_text_bytes }
    ensures by_index { (pairs : List ℕ) → IsFleet pairs → length (fleet_text pairs) ≤ result }
{
    FLEET_TEXT
}

// The text of a fleet, put at the front of the output; or a refusal, and the output is as it was.
pub fn print(pairs: &[u16], output: &mut [u8]) -> Answer
    ensures value { result ≡ print_answer pairs.now output.old }
    ensures output_after { output.new ≡ print_output pairs.now output.old }
{
    if fleet::is_fleet(pairs) {
        let size = printing::size(pairs);
        if output.len() < size {
            return Answer::Refused(fleet::refusal::SHORT_OUTPUT);
        }
        printing::fill(pairs, output);
        return Answer::Done(size);
    }
    Answer::Refused(fleet::refusal::NO_FLEET)
}
