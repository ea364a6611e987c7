// What is kept from row to row: the line that is read, the room's record in its cells, how long its buffer is, and which films are
// stored and not dropped.
use test_set::row;
use test_set::row::Line;
use test_set::whole::{Row, at, fitting, with};

// A film that is stored: its number, its film row, and the column and the number that were changed in that. Four numbers a film.
#[derive(Clone, Copy)]
pub struct Station {
    pub line: Line,
    pub ran: bool,
    pub length: u64,
    pub count: u32,
    pub numbers: [u32; 80],
    pub factors: [f32; 8],
    pub films: [u64; 32],
    pub stored: usize,
}

// A film of the room, as it was handed to store.
#[derive(Clone, Copy)]
pub struct Film {
    pub number: u64,
    pub case: u64,
    pub field: u64,
    pub value: u64,
}

// What the record's cells hold before they are a room's.
fn some_numbers() -> [u32; 80] {
    [7; 80]
}

fn some_factors() -> [f32; 8] {
    [7.0; 8]
}

// An empty room with a buffer of so many entries.
pub fn empty(length: u64) -> Station {
    let mut count = 1;
    let mut numbers = some_numbers();
    let mut factors = some_factors();
    c_films::room::tz_room_empty(&mut count, &mut numbers, &mut factors);
    Station {
        line: row::fresh(),
        ran: true,
        length,
        count,
        numbers,
        factors,
        films: [0; 32],
        stored: 0,
    }
}

// The station with another line.
pub fn with_line(st: Station, line: Line) -> Station {
    let mut next = st;
    next.line = line;
    next
}

// The station behind a row that is no step.
pub fn idle(st: Station) -> Station {
    let mut next = st;
    next.ran = false;
    next
}

// The station behind a step that leaves the record as it is.
pub fn stepped(st: Station) -> Station {
    let mut next = st;
    next.ran = true;
    next
}

// The station with another record.
pub fn with_room(st: Station, count: u32, numbers: [u32; 80], factors: [f32; 8]) -> Station {
    let mut next = st;
    next.ran = true;
    next.count = count;
    next.numbers = numbers;
    next.factors = factors;
    next
}

fn nth(films: [u64; 32], i: usize) -> u64 {
    if i < 32 {
        return films[i];
    }
    0
}

fn put(films: [u64; 32], i: usize, n: u64) -> [u64; 32] {
    let mut next = films;
    if i < 32 {
        next[i] = n;
    }
    next
}

// Where the numbers of film i begin.
fn start(i: usize) -> usize {
    i % 8 * 4
}

// Film i of those that are stored.
pub fn film_at(st: Station, i: usize) -> Film {
    let films = st.films;
    let a = start(i);
    Film {
        number: nth(films, a),
        case: nth(films, std::num::wrapping_add_usize(a, 1)),
        field: nth(films, std::num::wrapping_add_usize(a, 2)),
        value: nth(films, std::num::wrapping_add_usize(a, 3)),
    }
}

// The films with f in place i.
fn placed(films: [u64; 32], i: usize, f: Film) -> [u64; 32] {
    let a = start(i);
    let one = put(films, a, f.number);
    let two = put(one, std::num::wrapping_add_usize(a, 1), f.case);
    let three = put(two, std::num::wrapping_add_usize(a, 2), f.field);
    put(three, std::num::wrapping_add_usize(a, 3), f.value)
}

// One film more, behind the last.
pub fn with_film(st: Station, f: Film) -> Station {
    let mut next = st;
    let films = st.films;
    let more = placed(films, st.stored, f);
    next.films = more;
    if st.stored < 8 {
        next.stored = st.stored + 1;
    }
    next
}

// Film i, kept unless it is of this number.
fn kept(st: Station, next: Station, i: usize, number: u64) -> Station {
    let f = film_at(st, i);
    if f.number == number {
        return next;
    }
    with_film(next, f)
}

// The films without the one of this number.
pub fn without_film(st: Station, number: u64) -> Station {
    let mut next = st;
    next.stored = 0;
    for i in 0..st.stored {
        next = kept(st, next, i, number);
    }
    next
}

// The film row that a film was handed by: the one of its number, with the one column changed.
pub fn handed(set: &[u8], f: Film) -> Row {
    let n = fitting(4096, set.len());
    let front = &set[0..n];
    let case = row::found(front, f.case);
    with(case, f.field as usize, f.value)
}

// The film of a step, from the columns of its number, its film row, and what is changed in that.
pub fn film_of(r: Row, number: usize, case: usize, field: usize, value: usize) -> Film {
    Film {
        number: at(r, number),
        case: at(r, case),
        field: at(r, field),
        value: at(r, value),
    }
}
