// Each film that is stored and not dropped, drawn from the room and held to the same film prepared alone.
use crate::state::Station;
use crate::{state, step};
use film_settings::{MapRecord, Settings, Window};
use test_set::film::{Made, Shot};
use test_set::kept::{Eleven, Kept};
use test_set::whole::{Row, at, fitting, low, with};
use test_set::{column, digest, film, kept, made};
use test_text::Text;

// The window of a whole film.
fn all_of(t: Eleven) -> Window {
    Window {
        left: 0,
        top: 0,
        width: t.width,
        height: t.height,
    }
}

// Draws the film whole from the room.
fn from_room(
    st: Station,
    number: u32,
    row: Row,
    picture: &[u16],
    out: &mut [u16],
    map: &[u16],
) -> Shot {
    let n = fitting(st.length, map.len());
    let m = &map[0..n];
    let t = kept::made(row);
    made::output(out, film::OUTPUT_BASE);
    let answer = step::call_draw(st, number, t, all_of(t), picture, m, out);
    Shot {
        number: answer,
        digest: digest::greys(&out[..]),
    }
}

// Draws the film whole with the record that prepare left.
fn draw_alone(t: Eleven, k: Kept, picture: &[u16], map: &[u16], out: &mut [u16]) -> u32 {
    let s: Settings = kept::settings(t);
    let record: MapRecord = kept::record(k);
    let win = all_of(t);
    let answer = film_draw::draw(t.film, t.width, t.height, picture, s, record, win, map, out);
    film::drawn_number(answer)
}

// Draws it from as much of the map as was lent to prepare.
fn draw_left(row: Row, left: Made, picture: &[u16], out: &mut [u16]) -> u32 {
    let mut map = left.map;
    let k = left.kept;
    let whole: &mut [u16] = &mut map;
    let n = fitting(at(row, column::MAP_ROOM), whole.len());
    let m = &mut whole[0..n];
    draw_alone(kept::made(row), k, picture, &m[..], out)
}

// Prepares the film alone, and draws it.
fn alone(row: Row, picture: &mut [u16], out: &mut [u16]) -> Shot {
    made::output(out, film::OUTPUT_BASE);
    let left = film::called(false, 0, row, picture);
    let number = draw_left(row, left, &picture[..], out);
    Shot {
        number,
        digest: digest::greys(&out[..]),
    }
}

// Whether both answers and both outputs are the same: 1, else 0.
fn same(a: Shot, b: Shot) -> u32 {
    if a.number == b.number && a.digest == b.digest {
        1
    } else {
        0
    }
}

// The line of a film: its number, the answer of the room's draw, and whether it is drawn as if it alone had been prepared.
fn line(no: u64, number: u64, a: Shot, b: Shot) -> Text {
    let head = test_text::word(
        test_text::field(test_text::start(b'K', no), number),
        a.number,
    );
    test_text::end(test_text::word(head, same(a, b)))
}

// One of the films.
fn one(
    set: &[u8],
    no: u64,
    st: Station,
    i: usize,
    picture: &mut [u16],
    out: &mut [u16],
    map: &[u16],
) {
    let f = state::film_at(st, i);
    let row = with(state::handed(set, f), column::FILM, f.number);
    let n = fitting(at(row, column::LENGTH), picture.len());
    let p = &mut picture[0..n];
    made::picture(row, p);
    let k = fitting(n as u64, out.len());
    let o = &mut out[0..k];
    let a = from_room(st, low(f.number), row, &p[..], o, map);
    let b = alone(row, p, o);
    test_text::print(line(no, f.number, a, b));
}

// All of them, in the order of storing.
fn films(set: &[u8], no: u64, st: Station, picture: &mut [u16], out: &mut [u16], map: &[u16]) {
    for i in 0..st.stored {
        one(set, no, st, i, picture, out, map);
    }
}

// What is drawn behind a row: nothing where it is no step.
pub fn behind(set: &[u8], no: u64, st: Station, picture: &mut [u16], out: &mut [u16], map: &[u16]) {
    if st.ran {
        films(set, no, st, picture, out, map);
        return;
    }
}
