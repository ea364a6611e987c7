// The count rows of the film set: they come from standard input, go through counting, mapping and prepare, and what comes out is printed. The
// programs `test_count_films` and `test_count_calls` are this, once over the calls themselves and once over those for C.
#![tactic(auto)]

mod film;
mod words;

ghost use Rattle.std.specs.Prelude.{◌≡◌, ◌≤◌, length};

use test_set::row::Line;
use test_set::whole::{Row, at};
use test_set::{column, row};

// The number of the standard input.
const STDIN_FILENO: i32 = 0;

// The letter of a mapping's row.
const MAPPING: u64 = 77;

// Room for the largest picture.
fn pixel_room() -> [u16; 16384] {
    [0; 16384]
}

// Room for the most counts.
fn count_room() -> [u32; 32896] {
    [0; 32896]
}

// Runs a row.
fn turn(by_c: bool, text: &[u8], r: Row, picture: &mut [u16], counts: &mut [u32]) {
    let letter = at(r, column::LETTER);
    match letter {
        test_set::film::FILM => film::film(by_c, r, picture, counts),
        MAPPING => film::mappings(
            by_c,
            row::found(text, at(r, column::CASE)),
            r,
            picture,
            counts,
        ),
        _ => (),
    }
}

// Takes one byte of the rows in: a line's end runs its row.
fn taken(
    by_c: bool,
    text: &[u8],
    line: Line,
    b: u8,
    picture: &mut [u16],
    counts: &mut [u32],
) -> Line {
    if b != b'\n' {
        return row::fed(line, b);
    }
    let numbers = line.numbers;
    turn(by_c, text, numbers, picture, counts);
    row::fresh()
}

// Runs all rows, over rooms for the largest picture and the most counts.
fn rows(by_c: bool, text: &[u8], picture: &mut [u16], counts: &mut [u32]) {
    let mut line = row::fresh();
    for b in text {
        line = taken(by_c, text, line, *b, picture, counts);
    }
}

// Room for the rows.
fn rows_room() -> [u8; 65536]
    ensures { 65536 ≡ length result }
{
    [0; 65536]
}

// Runs the rows, and answers how many bytes of them were read. Rows of more than 65,536 bytes are cut, and then their text is not the stored one.
pub fn run(by_c: bool) -> usize
    ensures { result ≤ 65536 }
{
    let mut text = rows_room();
    let mut picture = pixel_room();
    let mut counts = count_room();
    let n = io::read_full(STDIN_FILENO, &mut text);
    rows(by_c, &text[..n], &mut picture, &mut counts);
    n
}
