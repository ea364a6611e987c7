// The byte rows of the film set: they come from standard input, go through the byte calls, and what comes out is printed. The programs
// `test_byte_films` and `test_byte_calls` are this, once over the calls themselves and once over those for C.
#![tactic(auto)]

mod bytes;
mod film;

ghost use Rattle.std.specs.Prelude.{◌≡◌, ◌≤◌, length};

use test_set::row::Line;
use test_set::whole::{Row, at};
use test_set::{column, row};

// The number of the standard input.
const STDIN_FILENO: i32 = 0;

// Room for the largest picture.
fn room() -> [u8; 262144] {
    [0; 262144]
}

// Runs a row.
fn turn(by_c: bool, text: &[u8], r: Row, picture: &mut [u8], out: &mut [u8]) {
    let letter = at(r, column::LETTER);
    match letter {
        test_set::film::FILM => film::film(by_c, r, picture, out),
        row::DRAW => film::draw(by_c, row::found(text, at(r, column::CASE)), r, picture, out),
        _ => (),
    }
}

// Takes one byte of the rows in: a line's end runs its row.
fn taken(by_c: bool, text: &[u8], line: Line, b: u8, picture: &mut [u8], out: &mut [u8]) -> Line {
    if b != b'\n' {
        return row::fed(line, b);
    }
    let numbers = line.numbers;
    turn(by_c, text, numbers, picture, out);
    row::fresh()
}

// Runs all rows, over rooms for the largest picture and the largest output.
fn rows(by_c: bool, text: &[u8], picture: &mut [u8], out: &mut [u8]) {
    let mut line = row::fresh();
    for b in text {
        line = taken(by_c, text, line, *b, picture, out);
    }
}

// Room for the rows.
fn rows_room() -> [u8; 65536]
    ensures { 65536 ≡ length result }
{
    [0; 65536]
}

// Runs the rows, and answers how many bytes of them were read. Rows of more than 65,536 bytes are cut, and then their text is not the stored one.
pub fn run(by_c: bool) -> usize
    ensures { result ≤ 65536 }
{
    let mut text = rows_room();
    let mut picture = room();
    let mut out = room();
    let n = io::read_full(STDIN_FILENO, &mut text);
    rows(by_c, &text[..n], &mut picture, &mut out);
    n
}
