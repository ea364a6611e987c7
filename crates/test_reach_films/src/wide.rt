// The scratch rows: prepare then draw, and enhance.
use crate::line::Shown;
use crate::{line, place};
use base_rows::Refusal;
use film_settings::{Footer, MapRecord, Settings, Window};
use test_set::film::Made;
use test_set::kept::{Eleven, Kept};
use test_set::whole::{Row, at, fitting};
use test_set::{column, film, kept, made};

// Room for the largest picture.
fn room() -> [u16; 4096] {
    [0; 4096]
}

// What an answer of enhance says: 0 where it accepted.
pub(crate) fn number(e: Result<Footer, Refusal>) -> u32 {
    match e {
        Ok(_) => 0,
        Err(r) => r.number(),
    }
}

// The window of a row's pixel alone.
pub(crate) fn window(scratch: Row) -> Window {
    Window {
        left: line::x(scratch),
        top: line::y(scratch),
        width: 1,
        height: 1,
    }
}

// Where a film's pixel lies in its picture.
pub(crate) fn index(t: Eleven, scratch: Row) -> usize {
    std::num::wrapping_add_usize(
        place::times(line::y(scratch), t.width) as usize,
        line::x(scratch) as usize,
    )
}

// The grey at a place of a picture; 0 where there is none.
fn grey(picture: &[u16], i: usize) -> u32 {
    if i < picture.len() {
        return picture[i] as u32;
    }
    0
}

// Calls draw with the pixel's window; answers its number.
fn draw_by(t: Eleven, k: Kept, scratch: Row, picture: &[u16], map: &[u16], out: &mut [u16]) -> u32 {
    let s: Settings = kept::settings(t);
    let record: MapRecord = kept::record(k);
    let win = window(scratch);
    let answer = film_draw::draw(t.film, t.width, t.height, picture, s, record, win, map, out);
    film::drawn_number(answer)
}

// Draws from what prepare left; answers draw's number.
fn drawn_from(row: Row, scratch: Row, left: Made, picture: &[u16], out: &mut [u16]) -> u32 {
    let mut map = left.map;
    let k = left.kept;
    let whole: &mut [u16] = &mut map;
    let n = fitting(at(row, column::MAP_ROOM), whole.len());
    let m = &mut whole[0..n];
    draw_by(kept::made(row), k, scratch, picture, &m[..], out)
}

// Enhances the film of a row; answers the call's number.
fn enhanced(row: Row, picture: &mut [u16]) -> u32 {
    let mut map = [0; 65536];
    let n = fitting(at(row, column::MAP_ROOM), 65536);
    let m = &mut map[0..n];
    made::map(row, m);
    let mut scratch = made::scratch();
    let k = fitting(at(row, column::SCRATCH_ROOM), 4200);
    let s = &mut scratch[0..k];
    let t = kept::made(row);
    let settings: Settings = kept::settings(t);
    number(film_prepare::enhance(t.width, t.height, picture, settings, m, s))
}

// Prepares and draws a film, then enhances it.
fn shown_in(row: Row, scratch: Row, picture: &mut [u16]) -> Shown {
    made::picture(row, picture);
    let left = film::called(false, 0, row, picture);
    let kept = left.kept;
    let mut out = [0; 1];
    let drawn = drawn_from(row, scratch, left, &picture[..], &mut out);
    let by_draw = grey(&out, 0);
    let answer = enhanced(row, picture);
    Shown {
        prepared: kept.number,
        drawn,
        by_draw,
        enhanced: answer,
        by_enhance: grey(&picture[..], index(kept::made(row), scratch)),
    }
}

// Makes a film and shows its pixel.
fn shown(row: Row, scratch: Row) -> Shown {
    let mut picture = room();
    let n = fitting(at(row, column::LENGTH), 4096);
    let p = &mut picture[0..n];
    shown_in(row, scratch, p)
}

// A row of the scratches, with that of its film.
pub(crate) fn scratch(row: Row, scratch: Row) {
    line::lines(
        row,
        scratch,
        shown(row, scratch),
        shown(line::poked(row, scratch), scratch),
    );
}
