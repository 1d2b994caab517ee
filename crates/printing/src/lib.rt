// The list on pages (document 02), a page at a time: what stands ahead is found before it is known whether the page has room for it, so a
// printing carries it over to the next page.
#![tactic(auto)]

ghost use Rattle.std.specs.Prelude.{◌≡◌, ℕ, ◌+◌, ◌*◌, ◌≤◌, length, take};
ghost use Rattle.matching.specs.Limits.{most_nodes_of_a_pattern};
ghost use Rattle.expansion.specs.Levels.{tables};
ghost use Rattle.text.specs.Text.{decimal};
ghost use Rattle.text.specs.Building.{Put};
ghost use Rattle.listing.specs.Listing.{asks};
ghost use Rattle.search.specs.Sought.{search_in};
ghost use Rattle.search.specs.Search.{pairs_of, NextInput};
ghost use Rattle.entries.specs.Entries.{list_of, rest_of};
ghost use Rattle.paper.specs.Paper.{page_lines, line_bytes, page_bytes, support_columns, form_lines, bytes_of};
ghost use Rattle.layout.specs.Pages.{blocks};
ghost use Rattle.printing.specs.Printing.{block_ahead, blocks_ahead, foot, OnPaper, IsPrinting, BeginInput, printing_from, Onward, PageIs};

use expansion::levels::{COUNTS, PLACES};
use fleet::Fleet;
use occurrence::PATTERN_NODES;
use paper::{LINE, LINES};
use search::{FrequentPattern, Pattern, Request};

// What is to be printed next: the form of the pattern, with its support; the line `end`; or nothing more.
#[derive(Clone, Copy)]
pub enum Upcoming {
    Form(usize),
    EndLine,
    Nothing,
}

// A printing. The fields are private, so every printing outside this crate comes from `Printing::begin`.
#[derive(Clone, Copy)]
pub struct Printing {
    ahead: Upcoming,
    request: Request,
    pattern: Pattern,
}

// How many bytes the page has, and the printing that goes on after it.
#[derive(Clone, Copy)]
pub struct Printed {
    pub len: usize,
    pub printing: Printing,
}

// The form of a pattern, in its lines. The caller shows that it has at most 16 nodes and that there is room.
fn put_form(
    held: usize,
    nodes: [u16; PATTERN_NODES],
    len: usize,
    page: &mut [u8],
    at: usize,
) -> usize
    requires { (len ≤ most_nodes_of_a_pattern) × (length (decimal held) ≤ support_columns) × (at + line_bytes * length (form_lines held (take len nodes)) ≤ length page.old) }
    ensures put { Put page.old at (bytes_of (form_lines held (take len nodes))) page.new result }
    ensures value { result ≡ at + line_bytes * length (form_lines held (take len nodes)) }
{
    paper::put_form(held, &nodes[..len], page, at)
}

// How many lines the form of a pattern takes.
fn form_size(nodes: [u16; PATTERN_NODES], len: usize) -> usize
    requires { len ≤ most_nodes_of_a_pattern }
    ensures { (held : ℕ) → result ≡ length (form_lines held (take len nodes)) }
{
    paper::form_size(&nodes[..len])
}

// Blank lines up to the end of a page of which so many lines are taken; the bytes of the page. A page that was not begun gets none.
fn put_foot(used: usize, page: &mut [u8]) -> usize
    requires { (used ≤ page_lines) × (page_bytes ≤ length page.old) }
    ensures { Put page.old (line_bytes * used) (foot used) page.new result }
{
    if used == 0 {
        return 0;
    }
    paper::put_blank_lines(LINES - used, page, LINE * used)
}

impl Printing {
    // The printing that goes on with what the step of a pattern, the one given, found.
    fn found(request: Request, given: Pattern, next: Option<FrequentPattern>) -> Printing
        ensures { result ≡ printing_from request given next }
    {
        match next {
            Some(FrequentPattern { pattern, support }) => Printing {
                ahead: Upcoming::Form(support),
                request,
                pattern,
            },
            None => Printing {
                ahead: Upcoming::EndLine,
                request,
                pattern: given,
            },
        }
    }

    // The printing that goes on after a pattern: its step tells what is ahead. The caller shows what the step asks for.
    fn after(
        request: Request,
        pattern: Pattern,
        fleet: &[u16],
        parents: &[u16; Fleet::NODES],
        numbers: &[u8; Fleet::NODES],
        sizes: &[u8; Fleet::NODES],
        places: &mut [u16; PLACES],
        lens: &mut [usize; PATTERN_NODES],
        counts: &mut [u8; COUNTS],
        known: &mut [bool; PATTERN_NODES],
    ) -> Printing
        requires { NextInput (search_in fleet.now request) pattern (tables parents.now numbers.now sizes.now places.old lens.old counts.old known.old) }
        ensures fleet_value { blocks_ahead result fleet.now ≡ blocks (rest_of (search_in fleet.now request) (pairs_of pattern)) }
        ensures printing { IsPrinting result fleet.now (tables parents.now numbers.now sizes.now places.new lens.new counts.new known.new) }
    {
        let none = [0u64; 0];
        let next = profiles::next(
            pattern, fleet, &none, request, parents, numbers, sizes, places, lens, counts, known,
            true,
        );
        Printing::found(request, pattern, next)
    }

    // The printing of a whole list. The caller shows the limits of the request, that the fleet has no remarks, and that the first three tables are its
    // own; the others may hold anything.
    pub fn begin(
        fleet: &[u16],
        request: Request,
        parents: &[u16; Fleet::NODES],
        numbers: &[u8; Fleet::NODES],
        sizes: &[u8; Fleet::NODES],
        places: &mut [u16; PLACES],
        lens: &mut [usize; PATTERN_NODES],
        counts: &mut [u8; COUNTS],
        known: &mut [bool; PATTERN_NODES],
    ) -> Printing
        requires { BeginInput fleet.now request (tables parents.now numbers.now sizes.now places.old lens.old counts.old known.old) }
        ensures fleet_value { blocks_ahead result fleet.now ≡ blocks (list_of (asks fleet.now request)) }
        ensures printing { IsPrinting result fleet.now (tables parents.now numbers.now sizes.now places.new lens.new counts.new known.new) }
    {
        let pattern = Pattern::empty();
        Printing::after(
            request, pattern, fleet, parents, numbers, sizes, places, lens, counts, known,
        )
    }

    // How many lines what is ahead takes, 0 where nothing is. The caller shows that it is a printing, here and below.
    pub fn lines(self) -> usize
        requires { OnPaper self }
        ensures { result ≡ length (block_ahead self) }
    {
        let ahead = self.ahead;
        match ahead {
            Upcoming::Form(_) => {
                let pattern = self.pattern;
                let nodes = pattern.nodes;
                form_size(nodes, pattern.len)
            }
            Upcoming::EndLine => 1,
            Upcoming::Nothing => 0,
        }
    }

    // Puts what is ahead at a position of the page; the position behind it.
    fn put(self, page: &mut [u8], at: usize) -> usize
        requires { OnPaper self × (at + line_bytes * length (block_ahead self) ≤ length page.old) }
        ensures put { Put page.old at (bytes_of (block_ahead self)) page.new result }
        ensures value { result ≡ at + line_bytes * length (block_ahead self) }
    {
        let ahead = self.ahead;
        match ahead {
            Upcoming::Form(held) => {
                let pattern = self.pattern;
                let nodes = pattern.nodes;
                put_form(held, nodes, pattern.len, page, at)
            }
            Upcoming::EndLine => paper::put_end(page, at),
            Upcoming::Nothing => at,
        }
    }

    // The printing after what is ahead: the next form is searched for. After the line `end` comes nothing.
    pub fn onward(
        self,
        fleet: &[u16],
        parents: &[u16; Fleet::NODES],
        numbers: &[u8; Fleet::NODES],
        sizes: &[u8; Fleet::NODES],
        places: &mut [u16; PLACES],
        lens: &mut [usize; PATTERN_NODES],
        counts: &mut [u8; COUNTS],
        known: &mut [bool; PATTERN_NODES],
    ) -> Printing
        requires { IsPrinting self fleet.now (tables parents.now numbers.now sizes.now places.old lens.old counts.old known.old) }
        ensures { Onward self fleet.now result (tables parents.now numbers.now sizes.now places.new lens.new counts.new known.new) }
    {
        let ahead = self.ahead;
        let request = self.request;
        let pattern = self.pattern;
        let Upcoming::Form(_) = ahead else {
            return Printing {
                ahead: Upcoming::Nothing,
                request: request,
                pattern: pattern,
            };
        };
        Printing::after(
            request, pattern, fleet, parents, numbers, sizes, places, lens, counts, known,
        )
    }

    // The next page, in front of what is lent; or none, and its length is 0, exactly where nothing more is to be printed. What the tables hold
    // afterwards is free, but that the printing that is left goes on with them.
    pub fn page(
        self,
        fleet: &[u16],
        parents: &[u16; Fleet::NODES],
        numbers: &[u8; Fleet::NODES],
        sizes: &[u8; Fleet::NODES],
        places: &mut [u16; PLACES],
        lens: &mut [usize; PATTERN_NODES],
        counts: &mut [u8; COUNTS],
        known: &mut [bool; PATTERN_NODES],
        page: &mut [u8],
    ) -> Printed
        requires { IsPrinting self fleet.now (tables parents.now numbers.now sizes.now places.old lens.old counts.old known.old) × (page_bytes ≤ length page.old) }
        ensures { PageIs self fleet.now page.old result page.new (tables parents.now numbers.now sizes.now places.new lens.new counts.new known.new) }
    {
        let mut printing = self;
        let mut used = 0;
        loop {
            let lines = printing.lines();
            let end = used + lines;
            if lines == 0 || end > LINES {
                let len = put_foot(used, page);
                return Printed {
                    len: len,
                    printing: printing,
                };
            }
            printing.put(page, LINE * used);
            printing = printing.onward(fleet, parents, numbers, sizes, places, lens, counts, known);
            used = end;
        }
    }
}
