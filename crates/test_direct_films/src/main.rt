// Runs the rows of the plain engine: direct through its call for C, and enhance beside it. The independent second program prints the same
// text.
#![tactic(auto)]

mod painted;

use test_set::row::Line;
use test_set::whole::{Row, at};
use test_set::{column, row};

// The number of the standard input.
const STDIN_FILENO: i32 = 0;

// Runs a row.
fn turn(r: Row) {
    let letter = at(r, column::LETTER);
    match letter {
        test_set::film::FILM => painted::both(r),
        _ => (),
    }
}

// Takes one byte of the rows in: a line's end runs its row.
fn taken(line: Line, b: u8) -> Line {
    if b != b'\n' {
        return row::fed(line, b);
    }
    let numbers = line.numbers;
    turn(numbers);
    row::fresh()
}

// Runs all rows.
fn rows(text: &[u8]) {
    let mut line = row::fresh();
    for b in text {
        line = taken(line, *b);
    }
}

fn main() {
    let mut text = io::large_buffer();
    let n = io::read_full(STDIN_FILENO, &mut text);
    rows(&text[..n]);
}
