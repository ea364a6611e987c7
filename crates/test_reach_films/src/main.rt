// Runs the scratch rows of the film set: two films that differ in a pixel, and what is rendered of another. The independent second program
// prints the same text.
#![tactic(auto)]

mod bytes;
mod line;
mod place;
mod wide;

use test_set::row::Line;
use test_set::whole::{Row, at};
use test_set::{column, row};

// The number of the standard input.
const STDIN_FILENO: i32 = 0;

// The letters of a scratch's row, and of one of bytes.
const SCRATCH: u64 = 83;

const BYTES: u64 = 66;

// Runs a row.
fn turn(text: &[u8], r: Row) {
    let letter = at(r, column::LETTER);
    match letter {
        SCRATCH => wide::scratch(row::found(text, at(r, line::CASE)), r),
        BYTES => bytes::scratch(row::found(text, at(r, line::CASE)), r),
        _ => (),
    }
}

// Takes one byte of the rows in: a line's end runs its row.
fn taken(text: &[u8], line: Line, b: u8) -> Line {
    if b != b'\n' {
        return row::fed(line, b);
    }
    let numbers = line.numbers;
    turn(text, numbers);
    row::fresh()
}

// Runs all rows.
fn rows(text: &[u8]) {
    let mut line = row::fresh();
    for b in text {
        line = taken(text, line, *b);
    }
}

fn main() {
    let mut text = io::large_buffer();
    let n = io::read_full(STDIN_FILENO, &mut text);
    rows(&text[..n]);
}
