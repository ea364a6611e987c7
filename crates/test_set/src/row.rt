// The rows of the set as text: one a line, a capital and then numbers, each behind one blank, `0x` before those that are
// hexadecimal. From `#` on a line is a note.
ghost use Rattle.std.specs.Prelude.{◌≡◌, length};
ghost use Rattle.test_set.specs.Filmset.{fresh_line, digit_of, longer_line, fed_line, looked_line, found_row};

use crate::whole::{Row, at, minus, plus, times, with};
use crate::{column, file, film};

// The letters of the rows besides a film's.
pub const DRAW: u64 = 68;

const FILE: u64 = 82;

const GREYS: u64 = 71;

const WRITE: u64 = 87;

const LIST: u64 = 76;

// What is read of a line: its numbers, the place of the one that is read, and that one's base.
#[derive(Clone, Copy)]
pub struct Line {
    pub numbers: Row,
    pub count: usize,
    pub base: u64,
}

// Before a line.
pub fn fresh() -> Line
    ensures { result ≡ fresh_line }
{
    Line {
        numbers: [0; 49],
        count: 0,
        base: 10,
    }
}

// The value of a digit; a capital stands for its own code.
fn digit(b: u64) -> u64
    ensures { result ≡ digit_of b }
{
    if b < 65 {
        return minus(b, 48);
    }
    if b < 97 {
        return b;
    }
    b - 87
}

// The line with one digit more of its number.
fn longer(line: Line, b: u8) -> Line
    ensures { result ≡ longer_line line b }
{
    let k = line.count;
    let n = line.numbers;
    Line {
        numbers: with(n, k, plus(times(at(n, k), line.base), digit(b as u64))),
        count: k,
        base: line.base,
    }
}

// The line with one byte more. Nothing is read behind its last number.
pub fn fed(line: Line, b: u8) -> Line
    ensures { result ≡ fed_line line b }
{
    let numbers = line.numbers;
    let count = line.count;
    if 48 < count {
        return line;
    }
    match b {
        b'#' => Line {
            numbers,
            count: 49,
            base: 10,
        },
        b'x' => Line {
            numbers,
            count,
            base: 16,
        },
        b' ' => Line {
            numbers,
            count: count + 1,
            base: 10,
        },
        _ => longer(line, b),
    }
}

// Runs a row.
fn turn(by_c: bool, text: &[u8], r: Row, picture: &mut [u16], out: &mut [u16]) {
    let letter = at(r, column::LETTER);
    match letter {
        film::FILM => film::film(by_c, r, picture, out),
        DRAW => film::draw(by_c, found(text, at(r, column::CASE)), r, picture, out),
        FILE => file::file(by_c, r),
        GREYS => file::greys(by_c, r),
        WRITE => file::write(by_c, r),
        LIST => file::list(by_c, r),
        _ => (),
    }
}

// Runs all rows of the set, over rooms for the largest picture and the largest output.
pub(crate) fn rows(by_c: bool, text: &[u8], picture: &mut [u16], out: &mut [u16])
    ensures { (length picture.new ≡ length picture.old) × (length out.new ≡ length out.old) }
{
    let mut line = fresh();
    for b in text {
        line = taken(by_c, text, line, *b, picture, out);
    }
}

// Takes one byte of the set in: a line's end runs its row.
fn taken(by_c: bool, text: &[u8], line: Line, b: u8, picture: &mut [u16], out: &mut [u16]) -> Line {
    if b != b'\n' {
        return fed(line, b);
    }
    let numbers = line.numbers;
    turn(by_c, text, numbers, picture, out);
    fresh()
}

// Takes one byte of the set in while film `no` is looked for. Its line stays: no byte is read behind its end.
fn looked(line: Line, no: u64, b: u8) -> Line
    ensures { result ≡ looked_line no line b }
{
    if b != b'\n' {
        return fed(line, b);
    }
    let numbers = line.numbers;
    if at(numbers, column::LETTER) != film::FILM {
        return fresh();
    }
    if at(numbers, column::NO) != no {
        return fresh();
    }
    Line {
        numbers,
        count: 49,
        base: 10,
    }
}

// The row of film `no`; zeros where there is none.
pub fn found(text: &[u8], no: u64) -> Row
    ensures { result ≡ found_row text.now no }
{
    let mut line = fresh();
    for b in text {
        line = looked(line, no, *b);
    }
    line.numbers
}
