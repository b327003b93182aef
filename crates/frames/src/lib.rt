// Standard input and output of the programs, and the frames there: a program that runs the cases of its
// input reads the header of a frame, then each part by the length that the header gives it, and prints a
// line for each case.
#![tactic(auto)]

ghost use Rattle.std.specs.Prelude.{◌≤◌, length};

use std::fmt::{self, Display, Write};

// The numbers that the system gives standard input and output.
const STDIN_FILENO: i32 = 0;

const STDOUT_FILENO: i32 = 1;

// The header of the next frame, or none where the input ends before it is whole.
pub fn header<const N: usize>() -> Option<[u8; N]> {
    let mut header = [0; N];
    if io::read_full(STDIN_FILENO, &mut header) < N {
        return None;
    }
    Some(header)
}

// Reads the next bytes of the input to the start of buf, as many as asked for, or fewer where the input
// ends first, and lends those that came. It reads none where buf has not room for as many.
pub fn take(buf: &mut [u8], count: usize) -> &mut [u8]
    ensures within { length result.now ≤ length buf.old }
    ensures no_more { length result.now ≤ count }
{
    let asked = if buf.len() < count { 0 } else { count };
    let part = &mut buf[..asked];
    let came = io::read_full(STDIN_FILENO, part);
    &mut part[..came]
}

// Answers each frame, as long as there is a next one. A proved loop has to end, and nothing says that the
// input does: the turns are counted, up to a number that no run reaches.
pub fn answer_each<H, N: Fn() -> Option<H> + Drop, A: Fn(H) + Drop>(next: N, answer: A)
    requires next { N.IsAlwaysCallable next }
    requires answer { A.IsAlwaysCallable answer }
{
    for _ in 0..u64::MAX {
        let Some(header) = next() else {
            return;
        };
        answer(header);
    }
}

// Writes bytes out. Where that fails it is passed over, since what follows is written all the same.
pub fn print(bytes: &[u8]) {
    io::write_all(STDOUT_FILENO, bytes);
}

// Standard output as text goes there piece by piece, each in a write of its own.
#[derive(Clone, Copy)]
pub struct Pieces;

impl fmt::Write for Pieces {
    fn write_str(&mut self, text: &str) -> fmt::Result {
        print(text.as_bytes());
        Ok(())
    }
}

// A line as far as it is laid, at the front of room that is lent for it.
#[derive(Drop)]
struct Line<'a> {
    room: &'a mut [u8],
    filled: usize,
    ghost within: { filled ≤ length room.now },
}

impl Line<'_> {
    // Lays bytes after what is laid, and says whether there was room for them.
    fn put(&mut self, bytes: &[u8]) -> bool {
        let free = &mut self.room[self.filled..];
        if free.len() < bytes.len() {
            return false;
        }
        free[..bytes.len()].copy_from_slice(bytes);
        self.filled += bytes.len();
        true
    }
}

impl fmt::Write for Line<'_> {
    fn write_str(&mut self, text: &str) -> fmt::Result {
        if self.put(text.as_bytes()) {
            Ok(())
        } else {
            Err(fmt::Error)
        }
    }
}

// A line, in one write: bytes as they are, and text. It is laid in room that is lent, at its front, and is cut off
// where the room ends; these programs lend room for each line of theirs.
pub fn print_line<T: Display + Drop>(room: &mut [u8], start: &[u8], text: T) {
    let mut line = Line { room, filled: 0 };
    if line.put(start) {
        let _ = writeln!(line, "{text}");
    }
    let Line { room, filled } = line;
    print(&room[..filled]);
}
