// Runs reading on the cases of standard input, and prints for each its label and what reading its file
// answers, on a line. A case is a frame: the length of its label and that of its file, four bytes each
// and lowest first, then the label, at most 200 bytes, then the file, at most 70,000.
#![tactic(auto)]

use frames::Pieces;
use show::Reading;
use std::fmt::Write;

const MOST_LABEL: usize = 200;

const MOST_FILE: usize = 70000;

// The lengths of a frame's label and file.
#[derive(Clone, Copy)]
struct Lengths {
    label: usize,
    file: usize,
}

// The lengths of the next frame, or none where its header is not whole or a length is over its limit.
fn next_lengths() -> Option<Lengths> {
    let header: [u8; 8] = frames::header()?;
    let label = numbers::number_at(&header, 0) as usize;
    let file = numbers::number_at(&header, 4) as usize;
    if MOST_LABEL < label || MOST_FILE < file {
        return None;
    }
    Some(Lengths { label, file })
}

// Prints the label, whose bytes come next.
fn print_label(length: usize) {
    let mut label = [0; MOST_LABEL];
    frames::print(frames::take(&mut label, length));
    frames::print(b": ");
}

// Prints what reading the file answers, whose bytes come next.
fn print_answer(length: usize) {
    let mut file = [0; MOST_FILE];
    let file = frames::take(&mut file, length);
    let _ = write!(Pieces, "{}", Reading(job::read(file)));
}

// Answers the frame whose label and file come next. The label goes out before the file is read, and what reading
// answers goes out piece by piece.
fn answer(lengths: Lengths) {
    print_label(lengths.label);
    print_answer(lengths.file);
    frames::print(b"\n");
}

fn main() {
    frames::answer_each(next_lengths, answer);
}
