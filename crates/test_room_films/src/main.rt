// Runs the room rows of the film set through the room's calls for C, and holds each film that is stored to the same film prepared
// alone. The independent second program prints the same text.
#![tactic(auto)]

mod state;
mod step;
mod stored;

use state::Station;
use test_set::whole::{Row, at, fitting};
use test_set::{column, row};

// The number of the standard input.
const STDIN_FILENO: i32 = 0;

// The letters of the rows.
const NEW: u64 = 78;

const STORE: u64 = 83;

const DROP: u64 = 88;

const CELL: u64 = 67;

const ENTRY: u64 = 77;

// Room for the largest picture, and for an output.
fn pixel_room() -> [u16; 2304] {
    [0; 2304]
}

// Room for the largest buffer of a room.
fn map_room() -> [u16; 8192] {
    [0; 8192]
}

// Runs a step over the room's buffer.
fn over(
    set: &[u8],
    st: Station,
    r: Row,
    picture: &mut [u16],
    out: &mut [u16],
    map: &mut [u16],
) -> Station {
    let letter = at(r, column::LETTER);
    match letter {
        STORE => step::store(set, st, r, picture, map),
        row::DRAW => step::draw(set, st, r, picture, out, &map[..]),
        DROP => step::drop_film(st, r, map),
        CELL => step::cell(st, r),
        ENTRY => step::entry(st, r, map),
        _ => state::idle(st),
    }
}

// Runs a step: a new room takes what it needs of all the room that there is.
fn turn(
    set: &[u8],
    st: Station,
    r: Row,
    picture: &mut [u16],
    out: &mut [u16],
    map: &mut [u16],
) -> Station {
    if at(r, column::LETTER) == NEW {
        return step::new(r, map);
    }
    let n = fitting(st.length, map.len());
    let m = &mut map[0..n];
    over(set, st, r, picture, out, m)
}

// Runs a row; behind a step each film that is stored is drawn.
fn stepped(
    set: &[u8],
    st: Station,
    picture: &mut [u16],
    out: &mut [u16],
    map: &mut [u16],
) -> Station {
    let line = st.line;
    let r = line.numbers;
    let next = turn(set, st, r, picture, out, map);
    stored::behind(set, at(r, column::NO), next, picture, out, &map[..]);
    state::with_line(next, row::fresh())
}

// Takes one byte of the rows in: a line's end runs its row.
fn taken(
    set: &[u8],
    st: Station,
    b: u8,
    picture: &mut [u16],
    out: &mut [u16],
    map: &mut [u16],
) -> Station {
    if b != b'\n' {
        let line = st.line;
        return state::with_line(st, row::fed(line, b));
    }
    stepped(set, st, picture, out, map)
}

// Runs all rows, over rooms for the largest picture, an output and the largest buffer.
fn rows(set: &[u8], picture: &mut [u16], out: &mut [u16], map: &mut [u16]) {
    let mut st = state::empty(0);
    for b in set {
        st = taken(set, st, *b, picture, out, map);
    }
}

fn main() {
    let mut text = io::large_buffer();
    let mut picture = pixel_room();
    let mut out = pixel_room();
    let mut map = map_room();
    let n = io::read_full(STDIN_FILENO, &mut text);
    rows(&text[..n], &mut picture, &mut out, &mut map);
}
