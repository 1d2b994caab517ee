// What the key program writes (document 01, under "The list"), from the answer of its reading on: the run that it begins, and its lines one by
// one.
#![tactic(auto)]

ghost use Rattle.std.specs.Prelude.{◌≡◌, IfSome, ◌≤◌, take};
ghost use Rattle.matching.specs.Limits.{most_nodes_of_a_pattern};
ghost use Rattle.expansion.specs.Levels.{tables};
ghost use Rattle.text.specs.Building.{Put};
ghost use Rattle.lines.specs.Lines.{form_line, refusal_line};
ghost use Rattle.run.specs.Running.{IsRun, Begun, StepIs, PartIs, TablesAfter, Found, run_at};

use expansion::levels::{COUNTS, PLACES};
use fleet::{Answer, Fleet};
use occurrence::PATTERN_NODES;
use search::{FrequentPattern, Pattern, Request};

// The most bytes of a part. One system call for some kilobytes costs little for each line; one for each line took half of the time of a long list.
pub const PART: usize = 8192;

// What a run is about to write: a refusal; the forms heavier than its pattern, and the end; or nothing more.
#[derive(Clone, Copy)]
pub enum Stage {
    Refusing(u8),
    Listing,
    Ended,
}

// A run: the pairs of its fleet are the first `nodes` of the memory that they were put into. The fields are private, so every run outside this
// crate comes from `Run::begin`.
#[derive(Clone, Copy)]
pub struct Run {
    stage: Stage,
    nodes: usize,
    request: Request,
    pattern: Pattern,
}

// How many bytes the line of a step has, and the run that goes on after it.
#[derive(Clone, Copy)]
pub struct Step {
    pub len: usize,
    pub run: Run,
}

// How many bytes the lines of a part have, and the run that goes on after them.
#[derive(Clone, Copy)]
pub struct Part {
    pub len: usize,
    pub run: Run,
}

// The line of a form with its support. The caller shows that the form has at most 16 nodes.
fn put_form(
    nodes: [u16; PATTERN_NODES],
    len: usize,
    held: usize,
    line: &mut [u8; lines::LINE],
) -> usize
    requires { len ≤ most_nodes_of_a_pattern }
    ensures { Put line.old 0 (form_line held (take len nodes)) line.new result }
{
    lines::form_line(held, &nodes[..len], line)
}

impl Run {
    // The run that the answer of a reading begins: to tell its refusal, or to list the fleet of as many nodes as it says.
    pub fn begin(answer: Answer, request: Request) -> Run
        ensures { Begun answer request result }
    {
        let pattern = Pattern::empty();
        match answer {
            Answer::Refused(number) => Run {
                stage: Stage::Refusing(number),
                nodes: 0,
                request: request,
                pattern: pattern,
            },
            Answer::Done(nodes) => Run {
                stage: Stage::Listing,
                nodes: nodes,
                request: request,
                pattern: pattern,
            },
        }
    }

    // The same run at another stage, with another pattern.
    fn at(self, stage: Stage, pattern: Pattern) -> Run
        ensures { result ≡ run_at self stage pattern }
    {
        Run {
            stage,
            pattern,
            ..self
        }
    }

    // The line of a refusal, after which nothing is left.
    fn refused(self, number: u8, line: &mut [u8; lines::LINE]) -> Step
        ensures { Put line.old 0 (refusal_line number) line.new result.len × (result.run ≡ run_at self Stage.Ended self.pattern) }
    {
        let len = lines::refusal_line(number, line);
        let run = self.at(Stage::Ended, self.pattern);
        Step { len, run }
    }

    // The line of what a pattern's step found, a form or the end, and the run after it. The caller shows that the form has at most 16 nodes.
    fn found(self, next: Option<FrequentPattern>, line: &mut [u8; lines::LINE]) -> Step
        requires { IfSome next (λ found. found.pattern.len ≤ most_nodes_of_a_pattern) }
        ensures { Found self next line.old result line.new }
    {
        match next {
            Some(FrequentPattern { pattern, support }) => {
                let len = put_form(pattern.nodes, pattern.len, support, line);
                let run = self.at(Stage::Listing, pattern);
                Step { len, run }
            }
            None => {
                let len = lines::end_line(line);
                let run = self.at(Stage::Ended, self.pattern);
                Step { len, run }
            }
        }
    }

    // The next line, in front of the lent one. There is none, and the step's length is 0, exactly where nothing more is to be written. The caller
    // shows that it is a run, with the memory and the tables that `opening::open` filled and the other tables that the step before it left.
    pub fn step(
        self,
        memory: &[u16],
        parents: &[u16; Fleet::NODES],
        numbers: &[u8; Fleet::NODES],
        sizes: &[u8; Fleet::NODES],
        places: &mut [u16; PLACES],
        lens: &mut [usize; PATTERN_NODES],
        counts: &mut [u8; COUNTS],
        known: &mut [bool; PATTERN_NODES],
        line: &mut [u8; lines::LINE],
    ) -> Step
        requires { IsRun self memory.now (tables parents.now numbers.now sizes.now places.old lens.old counts.old known.old) }
        ensures step_is { StepIs self memory.now line.old result line.new (tables parents.now numbers.now sizes.now places.new lens.new counts.new known.new) }
        ensures tables_after { TablesAfter self.stage (tables parents.now numbers.now sizes.now places.old lens.old counts.old known.old) (tables parents.now numbers.now sizes.now places.new lens.new counts.new known.new) }
    {
        let stage = self.stage;
        match stage {
            Stage::Refusing(number) => self.refused(number, line),
            Stage::Listing => {
                let nodes = self.nodes;
                let pattern = self.pattern;
                let request = self.request;
                let none = [0u64; 0];
                let next = profiles::next(
                    pattern,
                    &memory[..nodes],
                    &none,
                    request,
                    parents,
                    numbers,
                    sizes,
                    places,
                    lens,
                    counts,
                    known,
                    true,
                );
                self.found(next, line)
            }
            Stage::Ended => {
                let run = self;
                Step { len: 0, run: run }
            }
        }
    }

    // The next lines, in front of the lent buffer: as long as a line of any length has room, or to the end. There are none, and the part's length
    // is 0, exactly where nothing more is to be written. The caller shows what `step` asks for. What the tables hold afterwards is free, but that
    // the run that is left goes on with them.
    pub fn part(
        self,
        memory: &[u16],
        parents: &[u16; Fleet::NODES],
        numbers: &[u8; Fleet::NODES],
        sizes: &[u8; Fleet::NODES],
        places: &mut [u16; PLACES],
        lens: &mut [usize; PATTERN_NODES],
        counts: &mut [u8; COUNTS],
        known: &mut [bool; PATTERN_NODES],
        buffer: &mut [u8; PART],
    ) -> Part
        requires { IsRun self memory.now (tables parents.now numbers.now sizes.now places.old lens.old counts.old known.old) }
        ensures { PartIs self memory.now buffer.old result buffer.new (tables parents.now numbers.now sizes.now places.new lens.new counts.new known.new) }
    {
        let mut run = self;
        let mut line = [0u8; lines::LINE];
        let mut at = 0;
        while PART - at >= lines::LINE {
            let step = run.step(
                memory, parents, numbers, sizes, places, lens, counts, known, &mut line,
            );
            let len = step.len;
            run = step.run;
            if len == 0 {
                return Part { len: at, run: run };
            }
            at = text::put_bytes(&line[..len], buffer, at);
        }
        Part { len: at, run: run }
    }
}
