// The operations for other languages (include/korrigwen.h): numbers and slices, each slice a pointer and a
// length. Each function hands over to the operation of its name and gives the answer as numbers; a state
// goes in and out as its 14 numbers. Numbers of no state are handed on as a state that fits no job, so
// that 13 keeps its place in document 01's order, after what is wrong with the file and the mark area.
// specs/Numbers.antt says what each function answers.
#![tactic(auto)]

ghost use Rattle.std.specs.Prelude.{◌≡◌};
ghost use Rattle.job.specs.Read.{read_answer};
ghost use Rattle.korrigwen_c.specs.Numbers.{state_numbers, given_state, read_numbers, begun_with, begin_numbers};
ghost use Rattle.korrigwen_c.specs.Numbers.{ran_with, run_numbers, joined_with, values_numbers};

use job::Job;
use layout::{Entry, NO_ENTRY};
use treetracker::{Next, State};

// What reading gives: 0 and the job, or the number and the place of the refusal.
#[repr(C)]
#[derive(Clone, Copy)]
pub struct ReadNumbers {
    pub number: u32,
    pub place: usize,
    pub k: usize,
    pub plan: [u8; 8],
    pub entries: [Entry; 8],
    pub parents: [usize; 8],
}

// A state, in the order of flat::numbers_of.
#[repr(C)]
#[derive(Clone, Copy)]
pub struct StateNumbers {
    pub numbers: [u32; 14],
}

// What beginning gives: 0 and the fresh state, or the refusal.
#[repr(C)]
#[derive(Clone, Copy)]
pub struct BegunNumbers {
    pub number: u32,
    pub place: usize,
    pub state: StateNumbers,
}

// What running gives: 0, why it stopped and the next state, or the refusal.
#[repr(C)]
#[derive(Clone, Copy)]
pub struct RanNumbers {
    pub number: u32,
    pub place: usize,
    pub reason: u32,
    pub state: StateNumbers,
}

// What joining values gives: 0 and the number of columns, or the refusal.
#[repr(C)]
#[derive(Clone, Copy)]
pub struct JoinedNumbers {
    pub number: u32,
    pub place: usize,
    pub columns: usize,
}

// What stands beside a refusal of reading.
const NO_JOB: ReadNumbers = ReadNumbers {
    number: 0,
    place: 0,
    k: 0,
    plan: [0; 8],
    entries: [NO_ENTRY; 8],
    parents: [0; 8],
};

// The numbers of a state that stand beside a refusal.
const NO_STATE: StateNumbers = StateNumbers { numbers: [0; 14] };

// A state that fits no job: where the run has ended, there is no position.
const MISFIT: State = State {
    next: Next::Ended,
    at: 1,
    start: 0,
    chosen: [0; 8],
    steps: 0,
    lookups: 0,
    records: 0,
};

// The state that has these numbers, or one that fits no job.
fn given_state(n: StateNumbers) -> State
    ensures { result ≡ given_state n }
{
    let numbers = n.numbers;
    flat::state_of(&numbers).unwrap_or(MISFIT)
}

fn state_numbers(t: State) -> StateNumbers
    ensures { result ≡ state_numbers t }
{
    StateNumbers {
        numbers: flat::numbers_of(t),
    }
}

// job::read: refusals 1 to 11, or the job.
#[unsafe(no_mangle)]
pub extern "C" fn korrigwen_read(file: &[u8]) -> ReadNumbers
    ensures { result ≡ read_numbers (read_answer file.now) }
{
    match job::read(file) {
        Ok(job) => {
            let Job {
                k,
                plan,
                entries,
                parents,
            } = job;
            ReadNumbers {
                number: 0,
                place: 0,
                k,
                plan,
                entries,
                parents,
            }
        }
        Err(refused) => ReadNumbers {
            number: u32::from(refused.refusal),
            place: refused.place,
            ..NO_JOB
        },
    }
}

// runs::begin: refusals 1 to 12, or the fresh state and the job's marks cleared.
#[unsafe(no_mangle)]
pub extern "C" fn korrigwen_begin(file: &[u8], marks: &mut [u8]) -> BegunNumbers
    ensures { begun_with result marks.new ≡ begin_numbers file.now marks.old }
{
    match runs::begin(file, marks) {
        Ok(fresh) => BegunNumbers {
            number: 0,
            place: 0,
            state: state_numbers(fresh),
        },
        Err(refused) => BegunNumbers {
            number: u32::from(refused.refusal),
            place: refused.place,
            state: NO_STATE,
        },
    }
}

// runs::run: refusals 1 to 13, or at most `budget` steps from the state.
#[unsafe(no_mangle)]
pub extern "C" fn korrigwen_run(
    file: &[u8],
    state: StateNumbers,
    marks: &mut [u8],
    budget: u32,
    area: &mut [u32],
) -> RanNumbers
    ensures { ran_with result marks.new area.new
        ≡ run_numbers file.now state marks.old budget area.old }
{
    match runs::run(file, given_state(state), marks, budget, area) {
        Ok(ran) => RanNumbers {
            number: 0,
            place: 0,
            reason: u32::from(ran.why),
            state: state_numbers(ran.state),
        },
        Err(refused) => RanNumbers {
            number: u32::from(refused.refusal),
            place: refused.place,
            reason: 0,
            state: NO_STATE,
        },
    }
}

// values::join_values: refusals 1 to 11, 14 and 15, or the record's values at the front of the area.
#[unsafe(no_mangle)]
pub extern "C" fn korrigwen_join_values(
    file: &[u8],
    chosen: &[u32],
    values: &mut [i32],
) -> JoinedNumbers
    ensures { joined_with result values.new
        ≡ values_numbers file.now chosen.now values.old }
{
    match values::join_values(file, chosen, values) {
        Ok(columns) => JoinedNumbers {
            number: 0,
            place: 0,
            columns,
        },
        Err(refused) => JoinedNumbers {
            number: u32::from(refused.refusal),
            place: refused.place,
            columns: 0,
        },
    }
}
