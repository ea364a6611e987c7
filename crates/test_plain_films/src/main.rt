// Runs rows of plain files through the calls for C, and films there and back with those on raw files. The independent second
// program prints the same text.
#![tactic(auto)]

mod line;
mod moves;
mod row;

use row::Row;

// The number of the standard input.
const STDIN_FILENO: i32 = 0;

// Reads a plain file into a target, all of which is printed.
fn film(no: u32, file: &[u8], target: &mut [u16]) {
    let mut sizes = [9u32; 3];
    let answer = c_plain::tz_read_plain(file, &mut sizes, target);
    line::sizes(b'Q', no, answer, sizes);
    line::greys(target);
    line::end();
}

// Reads a plain file: its sizes alone, and into a target of so many entries.
fn read(no: u32, file: &[u8], room: usize) {
    let mut sizes = [9u32; 3];
    let answer = c_plain::tz_plain_sizes(file, &mut sizes);
    line::sizes(b'S', no, answer, sizes);
    line::end();
    let mut target = [7u16; 64];
    film(no, file, line::front_greys(&mut target, room));
}

// Writes a picture as a plain file into an out, all of which is printed.
fn laid(r: Row, picture: &[u16], out: &mut [u8]) {
    let head = r.head;
    let mut count: usize = 9;
    let answer = c_plain::tz_write_plain(picture, head[2], head[3], head[4], out, &mut count);
    line::start(b'X', head[0]);
    line::field(answer as u64);
    line::field(count as u64);
    line::bytes(out);
    line::end();
}

// Writes a picture as a plain file into so many bytes.
fn write(r: Row, picture: &[u16], room: usize) {
    let mut out = [7u8; 64];
    laid(r, picture, line::front_bytes(&mut out, room));
}

// Runs a row.
fn turn(r: Row) {
    let bytes = r.bytes;
    let greys = r.greys;
    let n = row::entries(r);
    let no = r.head[0];
    let room = r.head[1] as usize;
    if r.letter == b'Q' {
        read(no, line::first_bytes(&bytes, n), room);
    }
    if r.letter == b'X' {
        write(r, line::first_greys(&greys, n), room);
    }
    if r.letter == b'T' {
        moves::from_raw(no, line::first_bytes(&bytes, n));
    }
    if r.letter == b'U' {
        moves::from_plain(no, line::first_bytes(&bytes, n));
    }
}

// Takes one byte of the rows in: a line's end runs its row.
fn taken(r: Row, b: u8) -> Row {
    if b != b'\n' {
        return row::fed(r, b);
    }
    turn(row::ended(r));
    row::fresh()
}

// Runs all rows.
fn all(input: &[u8]) {
    let mut r = row::fresh();
    for b in input {
        r = taken(r, *b);
    }
}

fn main() {
    let mut input = io::large_buffer();
    let n = io::read_full(STDIN_FILENO, &mut input);
    all(&input[..n]);
}
