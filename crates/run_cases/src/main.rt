// Runs beginning, running and joining values on the cases of standard input, and prints for each case what
// they answer and what they left in the lent areas. A case is a frame. Its header is nine numbers, four
// bytes each and lowest first: the operation (1 begin, 2 run, 3 join values, 4 walk: begin, and run calls
// until the run has ended), the lengths of the label, the file and the mark area, the counts of the
// state's and the record's numbers, the budget, and the lengths of the area and the value area. Then come
// the label, the file, the mark area, the state's numbers and the record's. The area and the value area
// are lent with one number in every place, so that a place that was written shows. Each line goes out in
// one write, laid in room that a case has for its lines.
#![tactic(auto)]

mod shown;

ghost use Rattle.std.specs.Prelude.{◌≤◌, length};

use layout::Refused;
use runs::{Ran, Stop};
use show::NumberAndPlace;
use shown::{Answer, List, Numbers, Stopped};
use treetracker::State;

const MOST_LABEL: usize = 200;

const MOST_FILE: usize = 70000;

const MOST_MARKS: usize = 20000;

const MOST_NUMBERS: usize = 20;

const MOST_AREA: usize = 200;

const MOST_VALUES: usize = 64;

// A line is shorter: a label, 20,000 marks of at most 4 bytes and 300 numbers of at most 20.
const MOST_LINE: usize = 131072;

const MOST_CALLS: u32 = 200;

const UNTOUCHED: u32 = u32::MAX;

const UNTOUCHED_VALUE: i32 = -7;

// What is asked of a case.
#[derive(Clone, Copy)]
enum Operation {
    Begin,
    Run,
    Join,
    Walk,
}

// A number that is none of the first three is a walk's.
impl From<u32> for Operation {
    fn from(number: u32) -> Operation {
        match number {
            1 => Operation::Begin,
            2 => Operation::Run,
            3 => Operation::Join,
            _ => Operation::Walk,
        }
    }
}

// A frame's header: the operation, the budget, and the lengths and counts of the parts, each within its
// limit.
#[derive(Clone, Copy)]
struct Header {
    operation: Operation,
    label: usize,
    file: usize,
    marks: usize,
    state: usize,
    chosen: usize,
    budget: u32,
    area: usize,
    values: usize,
    ghost within: { (state ≤ 20) × (chosen ≤ 20) × (area ≤ 200) × (values ≤ 64) },
}

// The number at a place of the header, as a length.
fn length_at(header: &[u8], at: usize) -> usize {
    numbers::number_at(header, at) as usize
}

// The header of the next frame, or none where it is not whole or a part is over its limit.
fn next_header() -> Option<Header> {
    let header: [u8; 36] = frames::header()?;
    let label = length_at(&header, 4);
    let file = length_at(&header, 8);
    let marks = length_at(&header, 12);
    let state = length_at(&header, 16);
    let chosen = length_at(&header, 20);
    let area = length_at(&header, 28);
    let values = length_at(&header, 32);
    if MOST_LABEL < label || MOST_FILE < file || MOST_MARKS < marks {
        return None;
    }
    if MOST_NUMBERS < state || MOST_NUMBERS < chosen || MOST_AREA < area || MOST_VALUES < values {
        return None;
    }
    Some(Header {
        operation: Operation::from(numbers::number_at(&header, 0)),
        label,
        file,
        marks,
        state,
        chosen,
        budget: numbers::number_at(&header, 24),
        area,
        values,
    })
}

// Reads the next numbers of the input to the start of a list, as many as asked for, or fewer where the
// input ends first or the list has no more room, and lends those that came.
fn take_numbers(numbers: &mut [u32], count: usize) -> &mut [u32]
    requires { count ≤ 20 }
    ensures { length result.now ≤ length numbers.old }
{
    let mut bytes = [0; 4 * MOST_NUMBERS];
    let words = frames::take(&mut bytes, 4 * count).chunks_exact(4);
    let came = words.len().min(numbers.len());
    let taken = &mut numbers[..came];
    for (number, word) in taken.iter_mut().zip(words) {
        *number = numbers::number_at(word, 0);
    }
    taken
}

// The line of beginning.
fn print_begun(label: &[u8], begun: Result<State, Refused>, marks: &[u8], line: &mut [u8]) {
    let answer = Answer(begun.map(Numbers));
    let marks = List("marks", marks);
    frames::print_line(line, label, format_args!(": begin {answer} {marks}"));
}

// The line of a run call.
fn print_ran(label: &[u8], ran: Result<Ran, Refused>, marks: &[u8], area: &[u32], line: &mut [u8]) {
    let answer = Answer(ran.map(Stopped));
    let marks = List("marks", marks);
    let area = List("area", area);
    frames::print_line(line, label, format_args!(": run {answer} {marks} {area}"));
}

// The line of joining values.
fn print_joined(label: &[u8], joined: Result<usize, Refused>, values: &[i32], line: &mut [u8]) {
    let answer = Answer(joined);
    let values = List("values", values);
    frames::print_line(line, label, format_args!(": values {answer} {values}"));
}

// The line of numbers that are no state.
fn print_no_state(label: &[u8], refused: Refused, line: &mut [u8]) {
    let refused = NumberAndPlace(refused);
    frames::print_line(line, label, format_args!(": run no state {refused}"));
}

// A case: what its frame holds. Of the header, its calls take the budget and the sizes of the lent areas. The
// marks have a lifetime of their own, since each call lends them anew while the rest stays lent. The room for its
// lines goes beside it, since marks and line are lent together.
#[derive(Drop)]
struct Case<'a, 'm> {
    header: Header,
    label: &'a [u8],
    file: &'a [u8],
    marks: &'m mut [u8],
    state: &'a [u32],
    chosen: &'a [u32],
}

impl Case<'_, '_> {
    // Begins, and prints the line of that.
    fn begin(&mut self, line: &mut [u8]) -> Result<State, Refused> {
        let begun = runs::begin(self.file, self.marks);
        print_begun(self.label, begun, self.marks, line);
        begun
    }

    // One run call with an untouched area, and its line.
    fn call(&mut self, state: State, line: &mut [u8]) -> Result<Ran, Refused> {
        let mut area = [UNTOUCHED; MOST_AREA];
        let area = &mut area[..self.header.area];
        let ran = runs::run(self.file, state, self.marks, self.header.budget, area);
        print_ran(self.label, ran, self.marks, area, line);
        ran
    }

    // The run call of a case, unless its numbers are no state.
    fn run(&mut self, line: &mut [u8]) {
        match flat::state_of(self.state) {
            Ok(state) => {
                let _ = self.call(state, line);
            }
            Err(refused) => print_no_state(self.label, refused, line),
        }
    }

    // Joins the values of a record into an untouched value area, and prints the line of that.
    fn join(&self, line: &mut [u8]) {
        let mut values = [UNTOUCHED_VALUE; MOST_VALUES];
        let values = &mut values[..self.header.values];
        let joined = values::join_values(self.file, self.chosen, values);
        print_joined(self.label, joined, values, line);
    }

    // One run call of a walk: the state from which a further one is made, where the run is not over and the
    // call took a step.
    fn walk_on(&mut self, state: State, line: &mut [u8]) -> Option<State> {
        let Ran { why, state: next } = self.call(state, line).ok()?;
        let is_over = matches!(why, Stop::Ended | Stop::StepLimit);
        if is_over || next.steps == state.steps {
            return None;
        }
        Some(next)
    }

    // Begins, and makes run calls from the fresh state, while a further one is to be made.
    fn walk(&mut self, line: &mut [u8]) {
        let Ok(mut state) = self.begin(line) else {
            return;
        };
        for _ in 0..MOST_CALLS {
            let Some(next) = self.walk_on(state, line) else {
                return;
            };
            state = next;
        }
    }

    // What is asked of the case, with its line or lines.
    fn answer(&mut self, line: &mut [u8]) {
        match self.header.operation {
            Operation::Begin => {
                let _ = self.begin(line);
            }
            Operation::Run => self.run(line),
            Operation::Join => self.join(line),
            Operation::Walk => self.walk(line),
        }
    }
}

// Reads the parts of a frame, which come next, and answers its case.
fn answer(header: Header) {
    let mut label = [0; MOST_LABEL];
    let mut file = [0; MOST_FILE];
    let mut marks = [0; MOST_MARKS];
    let mut state = [0; MOST_NUMBERS];
    let mut chosen = [0; MOST_NUMBERS];
    let mut line = [0; MOST_LINE];
    let mut case = Case {
        header,
        label: frames::take(&mut label, header.label),
        file: frames::take(&mut file, header.file),
        marks: frames::take(&mut marks, header.marks),
        state: take_numbers(&mut state, header.state),
        chosen: take_numbers(&mut chosen, header.chosen),
    };
    case.answer(&mut line);
}

fn main() {
    frames::answer_each(next_header, answer);
}
