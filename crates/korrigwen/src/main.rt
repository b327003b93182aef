// The program (document 01, "The program"): reads one job from standard input and writes its records as
// lines of joined values and then the figures of the run, or the refusal. Everything but the reading and
// writing is done by proved functions of the other crates; output goes out in large blocks.
#![tactic(auto)]

ghost use Rattle.std.specs.Prelude.{◌≡◌, ◌+◌, ◌≤◌};
ghost use Rattle.lines.specs.Lines.{JobOf};

use layout::Refused;
use lines::Accepted;
use rows::Positions;
use runs::{Ran, Stop};
use text::Table;
use treetracker::State;

// One byte more than a job may have, so that a longer input shows.
const MOST_INPUT: usize = 65536;

const MOST_LINE: usize = 385;

const MOST_OUTPUT: usize = 65536;

// Each run call takes a step at least, so no run needs more.
const MOST_CALLS: u32 = 16777217;

// A number in 32 bits, or the greatest that there is.
fn narrow(n: usize) -> u32 {
    u32::try_from(n).unwrap_or(u32::MAX)
}

// What is still to be written out: the first bytes of a block. It is no `Drop`, so that it cannot be let go
// but by `finish`, which writes it out.
struct Output {
    block: [u8; MOST_OUTPUT],
    filled: usize,
    ghost within: { filled ≤ 65536 },
}

impl Output {
    fn new() -> Output {
        Output {
            block: [0; MOST_OUTPUT],
            filled: 0,
        }
    }

    // Writes out what is filled.
    fn flush(&mut self)
        ensures { self.new.filled ≡ 0 }
    {
        frames::print(&self.block[..self.filled]);
        self.filled = 0;
    }

    // Writes out what is filled, as the last of the output.
    fn finish(self) {
        let Output { block, filled } = self;
        frames::print(&block[..filled]);
    }

    // Makes room for a line: where there might be none, what is filled is written out first.
    fn make_room(&mut self)
        ensures { self.new.filled + 385 ≤ 65536 }
    {
        if MOST_OUTPUT - self.filled < MOST_LINE {
            self.flush();
        }
    }

    // The line of a record.
    fn put_record(&mut self, job: &Accepted, chosen: &[u32]) {
        self.make_room();
        self.filled = job.put_record(chosen, &mut self.block, self.filled);
    }

    // The last line of a run.
    fn put_summary(&mut self, last: Ran, marked: usize) {
        self.make_room();
        let Ran { why, state } = last;
        self.filled = text::put_summary(
            matches!(why, Stop::StepLimit),
            state.lookups,
            state.records,
            narrow(marked),
            state.steps,
            &mut self.block,
            self.filled,
        );
    }

    // The line of a refusal.
    fn put_refused(&mut self, refused: Refused) {
        self.make_room();
        let Refused { refusal, place } = refused;
        self.filled = text::put_refused(
            u32::from(refusal),
            narrow(place),
            &mut self.block,
            self.filled,
        );
    }
}

// One run call, and the lines of the records that it completed, which stand at the front of the area.
fn take_turn(
    job: &Accepted,
    marks: &mut [u8],
    state: State,
    area: &mut [u32],
    output: &mut Output,
) -> Result<Ran, Refused> {
    let ran = runs::run(job.table.file, state, marks, u32::MAX, area)?;
    let completed = ran.state.records.saturating_sub(state.records);
    for chosen in area.chunks_exact(job.width()).take(completed as usize) {
        output.put_record(job, chosen);
    }
    Ok(ran)
}

// Run calls until the run has ended or is at the step limit, and the last line. The first call goes on from
// the fresh state as from that of a call whose budget is spent.
fn run_all(
    job: &Accepted,
    marks: &mut [u8],
    fresh: State,
    output: &mut Output,
) -> Result<(), Refused> {
    let mut area = [0u32; 8192];
    let mut last = Ran {
        why: Stop::BudgetSpent,
        state: fresh,
    };
    for _ in 0..MOST_CALLS {
        last = take_turn(job, marks, last.state, &mut area, output)?;
        if matches!(last.why, Stop::Ended | Stop::StepLimit) {
            break;
        }
    }
    output.put_summary(last, runs::marked(marks, job.g.total));
    Ok(())
}

// Begins an accepted job and runs it.
fn run_job(file: &[u8], g: Positions, output: &mut Output) -> Result<(), Refused>
    requires { JobOf file.now g }
{
    let mut cells = [0u8; 196608];
    let mut sizes = [0u8; 16384];
    text::put_texts(file, &mut cells, &mut sizes);
    let mut marks = [0u8; 16384];
    let fresh = runs::begin(file, &mut marks)?;
    let table = Table {
        file,
        cells: &cells,
        sizes: &sizes,
    };
    let job = Accepted { table, g };
    run_all(&job, &mut marks, fresh, output)
}

fn answer(file: &[u8], output: &mut Output) -> Result<(), Refused> {
    let job = job::read(file)?;
    run_job(file, rows::positions_of(job), output)
}

fn main() {
    let mut input = [0u8; MOST_INPUT];
    let mut output = Output::new();
    if let Err(refused) = answer(frames::take(&mut input, MOST_INPUT), &mut output) {
        output.put_refused(refused);
    }
    output.finish();
}
