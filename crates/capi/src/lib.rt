// The library for programs in C or Rust: each function calls one of its layer and turns the answer into one
// number, the value of an answered call or the refusal's number with a minus sign. `include/hevolatsy.h` declares them.
#![tactic(auto)]

ghost use Rattle.std.specs.Prelude.{◌≡◌};
ghost use Rattle.sheet.specs.Reading.{read_answer, read_output};
ghost use Rattle.sheet.specs.WriteCall.{write_answer, write_output};
ghost use Rattle.vehicles.specs.Vehicle.{vehicle_answer};
ghost use Rattle.form.specs.FormCall.{form_answer, form_output};
ghost use Rattle.occurrence.specs.SupportCall.{support_answer};
ghost use Rattle.occurrence.specs.PlaceCall.{place_answer, place_output};
ghost use Rattle.register.specs.RegisterCall.{register_answer, nodes_output, holders_output};
ghost use Rattle.swap.specs.Swap.{swap_of, swap_answer, buffer_after, nodes_after, holders_after};
ghost use Rattle.listing.specs.Listing.{asks, asks_with};
ghost use Rattle.listing.specs.Calls.{start, step, answerTo};
ghost use Rattle.batch.specs.Batch.{batch_of, batch_answer, batch_output, batch_found};
ghost use Rattle.pages.specs.PagesCall.{pages_answer, pages_output};
ghost use Rattle.crossing.specs.Fields.{request_from};
ghost use Rattle.crossing.specs.Number.{number_of, placement_answer, reply_answer};

use crossing::{number, placed, replied, request_from};

// The pairs of a sheet, put at the front of the output. The value is their number.
#[unsafe(no_mangle)]
pub extern "C" fn hevolatsy_read(sheet: &[u8], output: &mut [u16]) -> i64
    ensures value { result ≡ number_of (read_answer sheet.now output.old) }
    ensures output_after { output.new ≡ read_output sheet.now output.old }
{
    number(sheet::read(sheet, output))
}

// The sheet of a fleet, put at the front of the output. The value is the number of its bytes.
#[unsafe(no_mangle)]
pub extern "C" fn hevolatsy_write(pairs: &[u16], output: &mut [u8]) -> i64
    ensures value { result ≡ number_of (write_answer pairs.now output.old) }
    ensures output_after { output.new ≡ write_output pairs.now output.old }
{
    number(sheet::write(pairs, output))
}

// The tree of a vehicle, by its number from 1. The value is the number of its nodes.
#[unsafe(no_mangle)]
pub extern "C" fn hevolatsy_vehicle(fleet: &[u16], vehicle: usize) -> i64
    ensures { result ≡ number_of (vehicle_answer fleet.now vehicle) }
{
    number(vehicles::vehicle(fleet, vehicle))
}

// The form of a tree, put at the front of the output. The value is the number of its nodes.
#[unsafe(no_mangle)]
pub extern "C" fn hevolatsy_form(tree: &[u16], output: &mut [u16]) -> i64
    ensures value { result ≡ number_of (form_answer tree.now output.old) }
    ensures output_after { output.new ≡ form_output tree.now output.old }
{
    number(form::form(tree, output))
}

// In how many vehicles' trees the pattern occurs.
#[unsafe(no_mangle)]
pub extern "C" fn hevolatsy_support(fleet: &[u16], pattern: &[u16]) -> i64
    ensures { result ≡ number_of (support_answer fleet.now pattern.now) }
{
    number(occurrence::support(fleet, pattern))
}

// The heaviest placing of the pattern in a vehicle's tree, put at the front of the output. The value is the number of its nodes, 0 where
// the pattern does not occur.
#[unsafe(no_mangle)]
pub extern "C" fn hevolatsy_place(
    fleet: &[u16],
    vehicle: usize,
    pattern: &[u16],
    output: &mut [u16],
) -> i64
    ensures value { result ≡ number_of (placement_answer (place_answer fleet.now vehicle pattern.now output.old)) }
    ensures output_after { output.new ≡ place_output fleet.now vehicle pattern.now output.old }
{
    number(placed(occurrence::place(fleet, vehicle, pattern, output)))
}

// The lightest listed form, put at the front of the output. The value is 100 times its support and the number of its nodes, 0 at end.
#[unsafe(no_mangle)]
pub extern "C" fn hevolatsy_start(fleet: &[u16], request: &[usize], output: &mut [u16]) -> i64
    ensures value { result ≡ number_of (reply_answer (answerTo (start (asks fleet.now (request_from request.now)) output.old)).reply) }
    ensures output_after { output.new ≡ (answerTo (start (asks fleet.now (request_from request.now)) output.old)).output }
{
    number(replied(listing::start(fleet, request_from(request), output)))
}

// The lightest listed form heavier than the pattern. The value is as for a start.
#[unsafe(no_mangle)]
pub extern "C" fn hevolatsy_step(
    fleet: &[u16],
    request: &[usize],
    pattern: &[u16],
    output: &mut [u16],
) -> i64
    ensures value { result ≡ number_of (reply_answer (answerTo (step (asks fleet.now (request_from request.now)) pattern.now output.old)).reply) }
    ensures output_after { output.new ≡ (answerTo (step (asks fleet.now (request_from request.now)) pattern.now output.old)).output }
{
    number(replied(listing::step(fleet, request_from(request), pattern, output)))
}

// The next forms of the list after a pattern (of no pairs: from the start), as many as surely fit, end to end at the front of the output, and
// the value of each at the front of `found`. The value is their number.
#[unsafe(no_mangle)]
pub extern "C" fn hevolatsy_batch(
    fleet: &[u16],
    request: &[usize],
    pattern: &[u16],
    output: &mut [u16],
    found: &mut [usize],
) -> i64
    ensures value { result ≡ number_of (batch_answer (batch_of (asks fleet.now (request_from request.now)) pattern.now output.old found.old)) }
    ensures output_after { output.new ≡ batch_output (batch_of (asks fleet.now (request_from request.now)) pattern.now output.old found.old) }
    ensures found_after { found.new ≡ batch_found (batch_of (asks fleet.now (request_from request.now)) pattern.now output.old found.old) }
{
    number(batch::batch(fleet, request_from(request), pattern, output, found))
}

// The list on pages, put at the front of the output. The value is the number of pages.
#[unsafe(no_mangle)]
pub extern "C" fn hevolatsy_pages(fleet: &[u16], request: &[usize], output: &mut [u8]) -> i64
    ensures value { result ≡ number_of (pages_answer (asks fleet.now (request_from request.now)) output.old) }
    ensures output_after { output.new ≡ pages_output (asks fleet.now (request_from request.now)) output.old }
{
    number(pages::pages(fleet, request_from(request), output))
}

// The label register of a fleet, put at the front of the outputs: for each label its nodes, and the set of vehicles that hold it. The value is the
// number of its entries.
#[unsafe(no_mangle)]
pub extern "C" fn hevolatsy_register(fleet: &[u16], nodes: &mut [u16], holders: &mut [u64]) -> i64
    ensures value { result ≡ number_of (register_answer fleet.now nodes.old holders.old) }
    ensures nodes_after { nodes.new ≡ nodes_output fleet.now nodes.old holders.old }
    ensures holders_after { holders.new ≡ holders_output fleet.now nodes.old holders.old }
{
    number(register::register(fleet, nodes, holders))
}

// A vehicle's tree swapped for another, in the fleet at the front of the buffer and in its register. The value is the new number of pairs.
#[unsafe(no_mangle)]
pub extern "C" fn hevolatsy_swap(
    buffer: &mut [u16],
    used: usize,
    vehicle: usize,
    tree: &[u16],
    nodes: &mut [u16],
    holders: &mut [u64],
) -> i64
    ensures value { result ≡ number_of (swap_answer (swap_of buffer.old used vehicle tree.now nodes.old holders.old)) }
    ensures buffer_after { buffer.new ≡ buffer_after (swap_of buffer.old used vehicle tree.now nodes.old holders.old) }
    ensures nodes_after { nodes.new ≡ nodes_after (swap_of buffer.old used vehicle tree.now nodes.old holders.old) }
    ensures holders_after { holders.new ≡ holders_after (swap_of buffer.old used vehicle tree.now nodes.old holders.old) }
{
    number(swap::swap(buffer, used, vehicle, tree, nodes, holders))
}

// As `hevolatsy_start`, with the fleet's register.
#[unsafe(no_mangle)]
pub extern "C" fn hevolatsy_start_with_register(
    fleet: &[u16],
    nodes: &[u16],
    holders: &[u64],
    request: &[usize],
    output: &mut [u16],
) -> i64
    ensures value { result ≡ number_of (reply_answer (answerTo (start (asks_with fleet.now nodes.now holders.now (request_from request.now)) output.old)).reply) }
    ensures output_after { output.new ≡ (answerTo (start (asks_with fleet.now nodes.now holders.now (request_from request.now)) output.old)).output }
{
    let asked = request_from(request);
    number(replied(registered::start(fleet, nodes, holders, asked, output)))
}

// As `hevolatsy_step`, with the fleet's register.
#[unsafe(no_mangle)]
pub extern "C" fn hevolatsy_step_with_register(
    fleet: &[u16],
    nodes: &[u16],
    holders: &[u64],
    request: &[usize],
    pattern: &[u16],
    output: &mut [u16],
) -> i64
    ensures value { result ≡ number_of (reply_answer (answerTo (step (asks_with fleet.now nodes.now holders.now (request_from request.now)) pattern.now output.old)).reply) }
    ensures output_after { output.new ≡ (answerTo (step (asks_with fleet.now nodes.now holders.now (request_from request.now)) pattern.now output.old)).output }
{
    let asked = request_from(request);
    number(replied(registered::step(fleet, nodes, holders, asked, pattern, output)))
}

// As `hevolatsy_batch`, with the fleet's register.
#[unsafe(no_mangle)]
pub extern "C" fn hevolatsy_batch_with_register(
    fleet: &[u16],
    nodes: &[u16],
    holders: &[u64],
    request: &[usize],
    pattern: &[u16],
    output: &mut [u16],
    found: &mut [usize],
) -> i64
    ensures value { result ≡ number_of (batch_answer (batch_of (asks_with fleet.now nodes.now holders.now (request_from request.now)) pattern.now output.old found.old)) }
    ensures output_after { output.new ≡ batch_output (batch_of (asks_with fleet.now nodes.now holders.now (request_from request.now)) pattern.now output.old found.old) }
    ensures found_after { found.new ≡ batch_found (batch_of (asks_with fleet.now nodes.now holders.now (request_from request.now)) pattern.now output.old found.old) }
{
    let asked = request_from(request);
    number(registered::batch(fleet, nodes, holders, asked, pattern, output, found))
}
