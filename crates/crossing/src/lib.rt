// How answers and requests cross the C interface: an answer as one number, the value of an answered call or the refusal's number with a minus
// sign; a request as the numbers of its fields.
#![tactic(auto)]

ghost use Rattle.std.specs.Prelude.{◌≡◌, get_or};
ghost use Rattle.std.specs.Int.{w64};
ghost use Rattle.std.proofs.Common.{SFits};
ghost use Rattle.crossing.specs.Fields.{request_from};
ghost use Rattle.crossing.specs.Number.{number_of, Fitting, placement_answer, reply_answer};

use fleet::Answer;
use listing::Reply;
use occurrence::Placement;
use search::Request;

// An answer as one number. For the crate above.
pub fn number(answer: Answer) -> i64
    requires { Fitting answer }
    ensures value { result ≡ number_of answer }
    ensures sfits { SFits w64 result }
{
    match answer {
        Answer::Done(value) => value as i64,
        Answer::Refused(refusal) => 0 - refusal as i64,
    }
}

// What a call for a placing answers, as a value: the number of nodes placed, 0 where the pattern does not occur. For the crate above.
pub fn placed(placement: Placement) -> Answer
    ensures { result ≡ placement_answer placement }
{
    match placement {
        Placement::Placed(nodes) => Answer::Done(nodes),
        Placement::Nowhere => Answer::Done(0),
        Placement::Refused(number) => Answer::Refused(number),
    }
}

// What a start or a step answers, as a value: a form's number, 0 at end. For the crate above.
pub fn replied(reply: Reply) -> Answer
    requires { Fitting (reply_answer reply) }
    ensures { result ≡ reply_answer reply }
{
    match reply {
        Reply::Form(nodes, support) => Answer::Done(batch::SUPPORT_UNIT * support + nodes),
        Reply::End => Answer::Done(0),
        Reply::Refused(number) => Answer::Refused(number),
    }
}

// A number of a request; a missing one counts as 0.
fn field(fields: &[usize], i: usize) -> usize
    ensures { result ≡ get_or fields.now i 0 }
{
    if i < fields.len() {
        return fields[i];
    }
    0
}

// The request that numbers say, in the order of its fields. For the crate above.
pub fn request_from(fields: &[usize]) -> Request
    ensures { result ≡ request_from fields.now }
{
    Request {
        threshold: field(fields, 0),
        bound: field(fields, 1),
        profile: field(fields, 2),
    }
}
