// The steps: a new room, store, draw, drop, and a change of a cell or of an entry. Each prints its answer and what it left.
use crate::state;
use crate::state::{Film, Station};
use film_settings::Window;
use test_set::kept::Eleven;
use test_set::whole::{Row, at, fitting, low, with, word};
use test_set::{column, digest, film, kept, made};
use test_text::Text;

// The columns that these rows have of their own. Of a new room: how long the buffer is, and what it is filled with.
const ROOM_LENGTH: usize = 2;

const ROOM_BASE: usize = 3;

const ROOM_SPAN: usize = 4;

// Of a store: what is changed in the film row, and how many entries are lent.
const STORE_FIELD: usize = 3;

const STORE_VALUE: usize = 4;

const STORE_LENT: usize = 6;

// Of a draw and of a drop: how many entries are lent.
const DRAW_LENT: usize = 13;

const DROP_LENT: usize = 3;

// Of a cell: which, and its number.
const WHICH: usize = 2;

const NUMBER: usize = 3;

// The line of the record: its count, the digest of its numbers, and its factors.
fn record_line(no: u64, st: Station) {
    let numbers = st.numbers;
    let factors = st.factors;
    let head = test_text::field(
        test_text::word(test_text::start(b'r', no), st.count),
        digest::words(&numbers),
    );
    let all = test_text::factor_field(
        test_text::factor_field(
            test_text::factor_field(test_text::factor_field(head, factors[0]), factors[1]),
            factors[2],
        ),
        factors[3],
    );
    test_text::print(test_text::end(test_text::factor_field(
        test_text::factor_field(
            test_text::factor_field(test_text::factor_field(all, factors[4]), factors[5]),
            factors[6],
        ),
        factors[7],
    )));
}

// A line with one number.
fn single(letter: u8, no: u64, n: u64) {
    test_text::print(test_text::end(test_text::field(test_text::start(letter, no), n)));
}

// An empty room.
pub fn new(r: Row, map: &mut [u16]) -> Station {
    let n = fitting(at(r, ROOM_LENGTH), map.len());
    let m = &mut map[0..n];
    let filled = with(
        with(r, column::FILL_BASE, at(r, ROOM_BASE)),
        column::FILL_SPAN,
        at(r, ROOM_SPAN),
    );
    made::map(filled, m);
    single(b'N', at(r, column::NO), digest::greys(&m[..]));
    state::empty(n as u64)
}

// The line of store: the answer, and of a stored film the footer.
fn stored_line(no: u64, number: u32, limit: u32, asked: f32, used: f64) -> Text {
    let line = test_text::word(test_text::start(b'S', no), number);
    if number != 0 {
        return test_text::end(line);
    }
    test_text::end(test_text::used_field(
        test_text::factor_field(test_text::word(line, limit), asked),
        used,
    ))
}

// The station behind a store: the film is stored where the answer is 0.
fn kept_film(st: Station, number: u32, f: Film) -> Station {
    if number != 0 {
        return st;
    }
    state::with_film(st, f)
}

// Calls store, and prints its answer.
fn call_store(
    st: Station,
    no: u64,
    f: Film,
    t: Eleven,
    picture: &[u16],
    map: &mut [u16],
    scratch: &mut [u32],
    list: &mut [u64],
) -> Station {
    let mut count = st.count;
    let mut numbers = st.numbers;
    let mut factors = st.factors;
    let mut limit = 0;
    let mut asked = 0.0;
    let mut used = 0.0;
    let number = c_films::room::tz_room_store(
        low(f.number),
        t.width,
        t.height,
        picture,
        t.across,
        t.down,
        t.bins,
        t.min,
        t.max,
        t.clip,
        t.factor,
        map,
        scratch,
        &mut limit,
        &mut asked,
        &mut used,
        list,
        t.edition,
        &mut count,
        &mut numbers,
        &mut factors,
    );
    test_text::print(stored_line(no, number, limit, asked, used));
    kept_film(state::with_room(st, count, numbers, factors), number, f)
}

// The lines behind store: the digests of picture, buffer, scratch and list, the record, and the buffer.
fn stored_lines(no: u64, st: Station, picture: &[u16], map: &[u16], scratch: &[u32], list: &[u64]) {
    test_text::print(test_text::four(
        b's',
        no,
        digest::greys(picture),
        digest::greys(map),
        digest::words(scratch),
        digest::longs(list),
    ));
    record_line(no, st);
    test_text::print(test_text::small(b'm', no, map));
}

// Makes scratch and list, and stores.
fn store_in(st: Station, r: Row, case: Row, f: Film, picture: &[u16], map: &mut [u16]) -> Station {
    let no = at(r, column::NO);
    let mut scratch = made::scratch();
    let k = fitting(at(case, column::SCRATCH_ROOM), 4200);
    let s = &mut scratch[0..k];
    let mut list = made::list();
    let j = fitting(at(case, column::LIST_ROOM), 600);
    let l = &mut list[0..j];
    let n = fitting(at(r, STORE_LENT), map.len());
    let m = &mut map[0..n];
    let next = call_store(st, no, f, kept::made(case), picture, m, s, l);
    stored_lines(no, next, picture, &map[..], &s[..], &l[..]);
    next
}

// A store.
pub fn store(set: &[u8], st: Station, r: Row, picture: &mut [u16], map: &mut [u16]) -> Station {
    let f = state::film_of(r, column::FILM, column::CASE, STORE_FIELD, STORE_VALUE);
    let case = state::handed(set, f);
    let n = fitting(at(case, column::LENGTH), picture.len());
    let p = &mut picture[0..n];
    made::picture(case, p);
    store_in(st, r, case, f, &p[..], map)
}

// Calls the room's draw; answers its number.
pub fn call_draw(
    st: Station,
    number: u32,
    t: Eleven,
    win: Window,
    picture: &[u16],
    map: &[u16],
    out: &mut [u16],
) -> u32 {
    let numbers = st.numbers;
    let factors = st.factors;
    c_films::room::tz_room_draw(
        number, t.width, t.height, picture, t.across, t.down, t.bins, t.min, t.max, t.clip,
        t.factor, win.left, win.top, win.width, win.height, map, out, t.edition, st.count,
        &numbers, &factors,
    )
}

// Sets the entry at a place, if there is one.
fn poke(entries: &mut [u16], place: u64, value: u64) {
    let i = place as usize;
    if i < entries.len() {
        entries[i] = (value % 65536) as u16;
    }
}

// The lines of draw: the answer, the digests of picture, buffer and output, and the output.
fn drawn_lines(no: u64, number: u32, picture: &[u16], map: &[u16], out: &[u16]) {
    test_text::print(test_text::one(b'D', no, number));
    test_text::print(test_text::three(
        b'd',
        no,
        digest::greys(picture),
        digest::greys(map),
        digest::greys(out),
    ));
    test_text::print(test_text::small(b'o', no, out));
}

// Draws over as much of the buffer as is lent.
fn draw_lent(st: Station, r: Row, case: Row, picture: &[u16], out: &mut [u16], map: &[u16]) -> u32 {
    let n = fitting(at(r, DRAW_LENT), map.len());
    let m = &map[0..n];
    call_draw(
        st,
        word(r, column::FILM),
        kept::made(case),
        film::window(r),
        picture,
        m,
        out,
    )
}

// Makes the output, and draws.
fn draw_in(st: Station, r: Row, case: Row, picture: &[u16], out: &mut [u16], map: &[u16]) {
    let k = fitting(at(r, column::OUT_ROOM), out.len());
    let o = &mut out[0..k];
    made::output(o, film::OUTPUT_BASE);
    let number = draw_lent(st, r, case, picture, o, map);
    drawn_lines(at(r, column::NO), number, picture, map, &o[..]);
}

// A draw.
pub fn draw(
    set: &[u8],
    st: Station,
    r: Row,
    picture: &mut [u16],
    out: &mut [u16],
    map: &[u16],
) -> Station {
    let f = state::film_of(r, column::FILM, column::CASE, column::FIELD, column::VALUE);
    let case = state::handed(set, f);
    let n = fitting(at(case, column::LENGTH), picture.len());
    let p = &mut picture[0..n];
    made::picture(case, p);
    poke(p, at(r, column::PIXEL_AT), at(r, column::PIXEL_VALUE));
    draw_in(st, r, case, &p[..], out, map);
    state::stepped(st)
}

// Calls drop, and prints its answer.
fn call_drop(st: Station, r: Row, map: &mut [u16]) -> Station {
    let mut count = st.count;
    let mut numbers = st.numbers;
    let mut factors = st.factors;
    let film = word(r, column::FILM);
    let number = c_films::room::tz_room_drop(film, map, &mut count, &mut numbers, &mut factors);
    test_text::print(test_text::one(b'X', at(r, column::NO), number));
    let next = state::with_room(st, count, numbers, factors);
    if number != 0 {
        return next;
    }
    state::without_film(next, film as u64)
}

// The lines behind drop: the digest of the buffer, the record, and the buffer.
fn dropped_lines(no: u64, st: Station, map: &[u16]) {
    single(b'x', no, digest::greys(map));
    record_line(no, st);
    test_text::print(test_text::small(b'm', no, map));
}

// A drop.
pub fn drop_film(st: Station, r: Row, map: &mut [u16]) -> Station {
    let n = fitting(at(r, DROP_LENT), map.len());
    let m = &mut map[0..n];
    let next = call_drop(st, r, m);
    dropped_lines(at(r, column::NO), next, &map[..]);
    next
}

// A factor by its bits.
fn factor_of(r: Row, bits: u64) -> f32 {
    let t = kept::made(with(r, column::FACTOR, bits));
    t.factor
}

// The record's cell of this number, changed: a set's number, a factor, or the count.
fn changed(st: Station, r: Row, which: usize, n: u64) -> Station {
    let count = st.count;
    let mut numbers = st.numbers;
    let mut factors = st.factors;
    if which < 80 {
        numbers[which] = low(n);
        return state::with_room(st, count, numbers, factors);
    }
    if which < 88 {
        factors[which - 80] = factor_of(r, n);
        return state::with_room(st, count, numbers, factors);
    }
    state::with_room(st, low(n), numbers, factors)
}

// A change of a cell.
pub fn cell(st: Station, r: Row) -> Station {
    let next = changed(st, r, at(r, WHICH) as usize, at(r, NUMBER));
    record_line(at(r, column::NO), next);
    next
}

// A change of an entry of the buffer.
pub fn entry(st: Station, r: Row, map: &mut [u16]) -> Station {
    poke(map, at(r, WHICH), at(r, NUMBER));
    single(b'e', at(r, column::NO), digest::greys(&map[..]));
    state::stepped(st)
}
