// The list of frequent patterns (document 01, "The list"): its start, and the step from one pattern to the next. Crate profiles finds the forms.
#![tactic(auto)]

ghost use Rattle.std.specs.Prelude.{◌≡◌, IfSome, ◌++◌, ◌≤◌, length, take, drop};
ghost use Rattle.terms.specs.Fleet.{IsFleet};
ghost use Rattle.terms.specs.Remarks.{without_remarks};
ghost use Rattle.terms.specs.Refusal.{refusal};
ghost use Rattle.register.specs.Register.{HoldersIfLent};
ghost use Rattle.matching.specs.Limits.{most_nodes_of_a_pattern};
ghost use Rattle.search.specs.Sought.{search_in};
ghost use Rattle.search.specs.Search.{entry_of, FirstInput};
ghost use Rattle.profiles.specs.Selected.{SelectedFirst};
ghost use Rattle.listing.specs.Listing.{asks};
ghost use Rattle.listing.specs.Calls.{start, step, request_rules, pattern_rules, outcome, handed, answerTo, most_threshold};

use search::{FrequentPattern, Pattern, Request};

// What a start or a step of the listing answers: the form's number of nodes and its support; end; or the number of the refusal.
#[derive(Clone, Copy)]
pub enum Reply {
    Form(usize, usize),
    End,
    Refused(u8),
}

// The greatest threshold.
pub const MOST_THRESHOLD: usize = 64;

// Ties the constant to the definition.
pub fn stated_threshold() -> usize
    ensures { result ≡ most_threshold }
{
    MOST_THRESHOLD
}

// The number of the first rule of a request that is broken, 0 if none is.
pub fn request_refusal(request: Request) -> u8
    ensures { result ≡ refusal (request_rules request) }
{
    if request.threshold < 1 {
        return fleet::refusal::THRESHOLD;
    }
    if request.threshold > MOST_THRESHOLD {
        return fleet::refusal::THRESHOLD;
    }
    if request.bound < 1 {
        return fleet::refusal::SIZE_BOUND;
    }
    if request.bound > occurrence::PATTERN_NODES {
        return fleet::refusal::SIZE_BOUND;
    }
    if request.profile > profiles::MAXIMAL {
        return fleet::refusal::PROFILE;
    }
    0
}

// The number of the first rule of a step's pattern that is broken, 0 if none is.
pub fn pattern_refusal(pattern: &[u16], bound: usize) -> u8
    ensures { result ≡ refusal (pattern_rules pattern.now bound) }
{
    if pattern.len() < 1 {
        return fleet::refusal::PATTERN_SIZE;
    }
    if pattern.len() > bound {
        return fleet::refusal::PATTERN_SIZE;
    }
    if !tree::is_tree(pattern) {
        return fleet::refusal::NO_TREE;
    }
    if !form::in_form(pattern) {
        return fleet::refusal::NOT_IN_FORM;
    }
    0
}

// The first `len` pairs in front of the output.
fn put(nodes: [u16; occurrence::PATTERN_NODES], len: usize, output: &mut [u16])
    requires { (len ≤ most_nodes_of_a_pattern) × (len ≤ length output.old) }
    ensures { output.new ≡ take len nodes ++ drop len output.old }
{
    tree::copy(&nodes[..len], output)
}

// The reply for what a step found; the output gets the form.
fn give(next: Option<FrequentPattern>, output: &mut [u16]) -> Reply
    requires { IfSome next (λ found. (found.pattern.len ≤ most_nodes_of_a_pattern) × (found.pattern.len ≤ length output.old)) }
    ensures { outcome result output.new ≡ handed (entry_of next) output.old }
{
    let Some(FrequentPattern { pattern, support }) = next else {
        return Reply::End;
    };
    put(pattern.nodes, pattern.len, output);
    Reply::Form(pattern.len, support)
}

// What a pattern's step finds in the fleet with remarks taken out. Where there are none the fleet is searched as it is. Only there the sets of its
// register are lent on: they are of all its nodes.
fn find(given: Pattern, fleet: &[u16], holders: &[u64], request: Request) -> Option<FrequentPattern>
    requires { IsFleet fleet.now × HoldersIfLent fleet.now holders.now × FirstInput (search_in (without_remarks fleet.now) request) given }
    ensures { SelectedFirst (search_in (without_remarks fleet.now) request) given result }
{
    if !remarks::any(fleet) {
        return profiles::first_step(given, fleet, holders, request);
    }
    let mut counted = [0u16; fleet::Fleet::NODES];
    let len = remarks::copy_without(fleet, &mut counted);
    let none = [0u64; 0];
    profiles::first_step(given, &counted[..len], &none, request)
}

// The start of the listing, for callers that have shown an accepted fleet. The sets of its label register may be lent in `holders`, or none.
pub fn start_from(fleet: &[u16], holders: &[u64], request: Request, output: &mut [u16]) -> Reply
    requires { IsFleet fleet.now × HoldersIfLent fleet.now holders.now }
    ensures { outcome result output.new ≡ answerTo (start (asks fleet.now request) output.old) }
{
    let number = request_refusal(request);
    if number != 0 {
        return Reply::Refused(number);
    }
    if request.bound > output.len() {
        return Reply::Refused(fleet::refusal::SHORT_OUTPUT);
    }
    let none = Pattern::empty();
    let next = find(none, fleet, holders, request);
    give(next, output)
}

// A step of the listing, for such callers.
pub fn step_from(
    fleet: &[u16],
    holders: &[u64],
    request: Request,
    pattern: &[u16],
    output: &mut [u16],
) -> Reply
    requires { IsFleet fleet.now × HoldersIfLent fleet.now holders.now }
    ensures { outcome result output.new ≡ answerTo (step (asks fleet.now request) pattern.now output.old) }
{
    let number = request_refusal(request);
    if number != 0 {
        return Reply::Refused(number);
    }
    let number = pattern_refusal(pattern, request.bound);
    if number != 0 {
        return Reply::Refused(number);
    }
    if output.len() < request.bound {
        return Reply::Refused(fleet::refusal::SHORT_OUTPUT);
    }
    let given = Pattern::of(pattern);
    let next = find(given, fleet, holders, request);
    give(next, output)
}

// The start of the listing: the lightest listed form, or end.
pub fn start(fleet: &[u16], request: Request, output: &mut [u16]) -> Reply
    ensures { outcome result output.new ≡ answerTo (start (asks fleet.now request) output.old) }
{
    if fleet::is_fleet(fleet) {
        let none = [0u64; 0];
        return start_from(fleet, &none, request, output);
    }
    Reply::Refused(fleet::refusal::NO_FLEET)
}

// A step of the listing: the lightest listed form heavier than the pattern, or end.
pub fn step(fleet: &[u16], request: Request, pattern: &[u16], output: &mut [u16]) -> Reply
    ensures { outcome result output.new ≡ answerTo (step (asks fleet.now request) pattern.now output.old) }
{
    if !fleet::is_fleet(fleet) {
        return Reply::Refused(fleet::refusal::NO_FLEET);
    }
    let none = [0u64; 0];
    step_from(fleet, &none, request, pattern, output)
}
