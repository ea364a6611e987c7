// The scratch rows of bytes: prepare then draw, and enhance, on bytes.
use crate::line::Shown;
use crate::{line, wide};
use film_settings::{MapRecord, Settings};
use test_set::kept::{Eleven, Kept};
use test_set::whole::{Row, at, fitting};
use test_set::{column, film, kept, made};

// Entry i as a byte; 0 where there is none.
fn byte(wide: &[u16], i: usize) -> u8 {
    if i < wide.len() {
        return (wide[i] % 256) as u8;
    }
    0
}

// Takes the wide entries as bytes.
fn taken(wide: &[u16], entries: &mut [u8]) {
    for i in 0..entries.len() {
        entries[i] = byte(wide, i);
    }
}

// Makes the picture of a row.
fn picture(row: Row, entries: &mut [u8]) {
    let mut room = [0; 4096];
    let n = fitting(entries.len() as u64, 4096);
    let w = &mut room[0..n];
    made::picture(row, w);
    taken(&w[..], entries);
}

// The grey at a place of a picture; 0 where there is none.
fn grey(picture: &[u8], i: usize) -> u32 {
    if i < picture.len() {
        return picture[i] as u32;
    }
    0
}

// Calls prepare with a list of its own.
fn prepared_in(row: Row, picture: &[u8], map: &mut [u8], scratch: &mut [u32]) -> Kept {
    let mut list = made::list();
    let n = fitting(at(row, column::LIST_ROOM), 600);
    let l = &mut list[0..n];
    let t = kept::made(row);
    let s: Settings = kept::settings(t);
    let answer = byte_prepare::prepare_bytes(
        t.film, t.width, t.height, picture, s, map, scratch, l,
    );
    kept::of_prepared(0, at(row, column::NO), t, answer)
}

// Prepares with a scratch of its own.
fn prepared(row: Row, picture: &[u8], map: &mut [u8]) -> Kept {
    let mut scratch = made::scratch();
    let k = fitting(at(row, column::SCRATCH_ROOM), 4200);
    let s = &mut scratch[0..k];
    prepared_in(row, picture, map, s)
}

// Enhances with map and scratch of its own; answers the call's number.
fn enhanced(row: Row, picture: &mut [u8]) -> u32 {
    let mut map = [0; 16640];
    let n = fitting(at(row, column::MAP_ROOM), 16640);
    let m = &mut map[0..n];
    let mut scratch = made::scratch();
    let k = fitting(at(row, column::SCRATCH_ROOM), 4200);
    let s = &mut scratch[0..k];
    let t = kept::made(row);
    let settings: Settings = kept::settings(t);
    wide::number(byte_prepare::enhance_bytes(t.width, t.height, picture, settings, m, s))
}

// Calls draw with the pixel's window; answers its number.
fn draw_by(t: Eleven, k: Kept, scratch: Row, picture: &[u8], map: &[u8], out: &mut [u8]) -> u32 {
    let s: Settings = kept::settings(t);
    let record: MapRecord = kept::record(k);
    let win = wide::window(scratch);
    let answer = byte_draw::draw_bytes(
        t.film, t.width, t.height, picture, s, record, win, map, out,
    );
    film::drawn_number(answer)
}

// Prepares and draws a film, then enhances it.
fn shown_in(row: Row, scratch: Row, picture: &mut [u8]) -> Shown {
    let t = kept::made(row);
    let mut map = [0; 16640];
    let n = fitting(at(row, column::MAP_ROOM), 16640);
    let m = &mut map[0..n];
    let k = prepared(row, &picture[..], m);
    let mut out = [0; 1];
    let drawn = draw_by(t, k, scratch, &picture[..], &m[..], &mut out);
    let by_draw = grey(&out, 0);
    let answer = enhanced(row, picture);
    Shown {
        prepared: k.number,
        drawn,
        by_draw,
        enhanced: answer,
        by_enhance: grey(&picture[..], wide::index(t, scratch)),
    }
}

// Makes a film and shows its pixel.
fn shown(row: Row, scratch: Row) -> Shown {
    let mut room = [0; 4096];
    let n = fitting(at(row, column::LENGTH), 4096);
    let p = &mut room[0..n];
    picture(row, p);
    shown_in(row, scratch, p)
}

// A row of the scratches of bytes, with that of its film.
pub(crate) fn scratch(row: Row, scratch: Row) {
    line::lines(
        row,
        scratch,
        shown(row, scratch),
        shown(line::poked(row, scratch), scratch),
    );
}
