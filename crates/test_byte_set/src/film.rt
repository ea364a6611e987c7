// The films and the draws of bytes: prepare, draw and enhance on bytes, by the calls themselves or by those for C.
use crate::bytes;
use film_settings::Settings;
use pixel_grid::Axis;
use test_set::axes::Axes;
use test_set::film::{
    Left, NOWHERE, OUTPUT_BASE, Shot, drawn_number, handed, is_film, joined, listed, own, same,
    unlisted, window,
};
use test_set::kept::{Eleven, Kept};
use test_set::whole::{Row, at, fitting, word};
use test_set::{axes, column, digest, kept, made};
use test_text::Text;

// The number in a draw's column of the field where the wide call prepares the film.
const BY_WIDE: u64 = 11;

// What prepare or enhance left: the answer with the record for draw, the picture's digest, and the map.
#[derive(Clone, Copy)]
pub struct Made {
    pub kept: Kept,
    pub digest: u64,
    pub map: [u8; 16640],
}

// Calls prepare for C. A refusal leaves the made record where it was.
fn prepare_c(
    letter: u8,
    no: u64,
    t: Eleven,
    picture: &[u8],
    map: &mut [u8],
    scratch: &mut [u32],
    list: &mut [u64],
) -> Kept {
    let mut numbers = kept::ten(t);
    let mut factor = t.factor;
    let made = axes::of(t);
    let columns = made.columns;
    let rows = made.rows;
    let mut column_edges = columns.edges;
    let mut column_centres = columns.centres;
    let mut row_edges = rows.edges;
    let mut row_centres = rows.centres;
    let mut limit = 0;
    let mut asked = 0.0;
    let mut used = 0.0;
    let number = c_bytes::tz_prepare_bytes(
        t.film,
        t.width,
        t.height,
        picture,
        t.across,
        t.down,
        t.bins,
        t.min,
        t.max,
        t.clip,
        t.factor,
        map,
        scratch,
        &mut numbers,
        &mut factor,
        &mut limit,
        &mut asked,
        &mut used,
        &mut column_edges,
        &mut column_centres,
        &mut row_edges,
        &mut row_centres,
        list,
        t.edition,
    );
    let left = Axes {
        columns: Axis {
            edges: column_edges,
            centres: column_centres,
        },
        rows: Axis {
            edges: row_edges,
            centres: row_centres,
        },
    };
    kept::of_c(
        letter, no, number, numbers, factor, left, limit, asked, used,
    )
}

// Calls prepare, and prints its answer under the letter.
fn prepared(
    by_c: bool,
    letter: u8,
    row: Row,
    picture: &[u8],
    map: &mut [u8],
    scratch: &mut [u32],
    list: &mut [u64],
) -> Kept {
    let no = at(row, column::NO);
    let t = kept::made(row);
    if by_c {
        return prepare_c(letter, no, t, picture, map, scratch, list);
    }
    let s: Settings = kept::settings(t);
    let answer = byte_prepare::prepare_bytes(
        t.film, t.width, t.height, picture, s, map, scratch, list,
    );
    kept::of_prepared(letter, no, t, answer)
}

// Makes the list and calls prepare, and prints its answer under the letter.
fn prepared_listed(
    by_c: bool,
    letter: u8,
    row: Row,
    picture: &[u8],
    map: &mut [u8],
    scratch: &mut [u32],
) -> Left {
    let mut list = made::list();
    let n = fitting(at(row, column::LIST_ROOM), 600);
    let l = &mut list[0..n];
    let kept = prepared(by_c, letter, row, picture, map, scratch, l);
    listed(at(row, column::NO), kept, &l[..])
}

// Calls enhance for C.
fn enhance_c(no: u64, t: Eleven, picture: &mut [u8], map: &mut [u8], scratch: &mut [u32]) -> Kept {
    let mut limit = 0;
    let mut asked = 0.0;
    let mut used = 0.0;
    let number = c_bytes::tz_enhance_bytes(
        t.width, t.height, picture, t.across, t.down, t.bins, t.min, t.max, t.clip, t.factor, map,
        scratch, &mut limit, &mut asked, &mut used, t.edition,
    );
    let k = kept::of_made(number, t);
    test_text::print(kept::line(b'E', no, k, limit, asked, used));
    k
}

// Calls enhance, and prints its answer.
fn enhanced(by_c: bool, row: Row, picture: &mut [u8], map: &mut [u8], scratch: &mut [u32]) -> Kept {
    let no = at(row, column::NO);
    let t = kept::made(row);
    if by_c {
        return enhance_c(no, t, picture, map, scratch);
    }
    let s: Settings = kept::settings(t);
    let answer = byte_prepare::enhance_bytes(t.width, t.height, picture, s, map, scratch);
    kept::of_enhanced(no, t, answer)
}

// Calls enhance under the letter E, else prepare.
fn call(
    by_c: bool,
    letter: u8,
    row: Row,
    picture: &mut [u8],
    map: &mut [u8],
    scratch: &mut [u32],
) -> Left {
    if letter == b'E' {
        return unlisted(enhanced(by_c, row, picture, map, scratch));
    }
    prepared_listed(by_c, letter, row, &picture[..], map, scratch)
}

// The digests of picture, map and scratch behind a call, behind prepare also that of its list, and what it wrote; nothing under the
// letter 0. Answers the picture's.
fn called_lines(
    letter: u8,
    no: u64,
    list: u64,
    line: Text,
    picture: &[u8],
    map: &[u8],
    scratch: &[u32],
) -> u64 {
    let digest = digest::bytes(picture);
    if letter == 0 {
        return digest;
    }
    let b = digest::bytes(map);
    let c = digest::words(scratch);
    if letter == b'E' {
        test_text::print(test_text::three(b'e', no, digest, b, c));
        test_text::print(test_text::small_bytes(b'i', no, picture));
        return digest;
    }
    test_text::print(test_text::four(b'p', no, digest, b, c, list));
    test_text::print(test_text::small_bytes(b'm', no, map));
    test_text::print(line);
    digest
}

// Makes map and scratch and calls, and prints what comes of it under the letter.
fn called(by_c: bool, letter: u8, row: Row, picture: &mut [u8]) -> Made {
    let mut map = [0; 16640];
    let n = fitting(at(row, column::MAP_ROOM), 16640);
    let m = &mut map[0..n];
    bytes::map(row, m);
    let mut scratch = made::scratch();
    let k = fitting(at(row, column::SCRATCH_ROOM), 4200);
    let s = &mut scratch[0..k];
    let left = call(by_c, letter, row, picture, m, s);
    let line = left.line;
    let digest = called_lines(
        letter,
        at(row, column::NO),
        left.list,
        line,
        &picture[..],
        &m[..],
        &s[..],
    );
    let kept = left.kept;
    Made { kept, digest, map }
}

// Prepares the film by the wide call, and takes its map as bytes.
fn called_wide(by_c: bool, row: Row) -> Made {
    let mut picture = bytes::room();
    let n = fitting(at(row, column::LENGTH), 262144);
    let p = &mut picture[0..n];
    made::picture(row, p);
    let left = test_set::film::called(by_c, 0, row, p);
    let kept = left.kept;
    let wide = left.map;
    let mut map = [0; 16640];
    bytes::taken(&wide, &mut map);
    Made {
        kept,
        digest: left.digest,
        map,
    }
}

// Prepares the film of a draw: by the wide call where its row says so.
fn first(by_c: bool, letter: u8, row: Row, drawn: Row, picture: &mut [u8]) -> Made {
    if own(drawn, column::FIELD, 0) == BY_WIDE {
        return called_wide(by_c, row);
    }
    called(by_c, letter, row, picture)
}

// Calls draw for C; answers its number.
fn draw_c(drawn: Row, t: Eleven, k: Kept, picture: &[u8], map: &[u8], out: &mut [u8]) -> u32 {
    let eleven = k.eleven;
    let axes = k.axes;
    let columns = axes.columns;
    let rows = axes.rows;
    let numbers = kept::ten(eleven);
    let column_edges = columns.edges;
    let column_centres = columns.centres;
    let row_edges = rows.edges;
    let row_centres = rows.centres;
    let win = window(drawn);
    c_bytes::tz_draw_bytes(
        word(drawn, column::FILM),
        t.width,
        t.height,
        picture,
        t.across,
        t.down,
        t.bins,
        t.min,
        t.max,
        t.clip,
        t.factor,
        &numbers,
        eleven.factor,
        win.left,
        win.top,
        win.width,
        win.height,
        map,
        out,
        &column_edges,
        &column_centres,
        &row_edges,
        &row_centres,
        t.edition,
    )
}

// Calls draw with the record; answers its number.
fn draw_by(
    by_c: bool,
    drawn: Row,
    t: Eleven,
    k: Kept,
    picture: &[u8],
    map: &[u8],
    out: &mut [u8],
) -> u32 {
    if by_c {
        return draw_c(drawn, t, k, picture, map, out);
    }
    let s: Settings = kept::settings(t);
    let record = kept::record(k);
    let win = window(drawn);
    let answer = byte_draw::draw_bytes(
        word(drawn, column::FILM),
        t.width,
        t.height,
        picture,
        s,
        record,
        win,
        map,
        out,
    );
    drawn_number(answer)
}

// The lines of draw: the answer, the digests of picture, map and output, and the output.
fn drawn_lines(drawn: Row, number: u32, picture: &[u8], map: &[u8], out: &[u8]) -> Shot {
    let no = at(drawn, column::NO);
    let of_film = is_film(drawn);
    let digest = digest::bytes(out);
    test_text::print(test_text::one(test_text::either(of_film, b'D', b'W'), no, number));
    test_text::print(test_text::three(
        test_text::either(of_film, b'd', b'w'),
        no,
        digest::bytes(picture),
        digest::bytes(map),
        digest,
    ));
    test_text::print(test_text::small_bytes(test_text::either(of_film, b'o', b'v'), no, out));
    Shot { number, digest }
}

// Makes the output and draws from the map.
fn drawn_from(
    by_c: bool,
    drawn: Row,
    t: Eleven,
    k: Kept,
    picture: &[u8],
    map: &[u8],
    out: &mut [u8],
) -> Shot {
    let n = fitting(at(drawn, column::OUT_ROOM), out.len());
    let o = &mut out[0..n];
    bytes::output(o, OUTPUT_BASE);
    let number = draw_by(by_c, drawn, t, k, picture, map, o);
    drawn_lines(drawn, number, picture, map, &o[..])
}

// Changes the map where the row says so, and draws.
fn drawn_of(by_c: bool, row: Row, drawn: Row, made: Made, picture: &[u8], out: &mut [u8]) -> Shot {
    let mut map = made.map;
    let k = made.kept;
    let whole: &mut [u8] = &mut map;
    let n = fitting(at(row, column::MAP_ROOM), whole.len());
    let m = &mut whole[0..n];
    bytes::poke(
        m,
        own(drawn, column::MAP_AT, NOWHERE),
        at(drawn, column::MAP_VALUE),
    );
    let kept = handed(row, drawn, k);
    drawn_from(by_c, drawn, kept::made(row), kept, picture, &m[..], out)
}

// Makes the film, prepares it, and draws; the lines of prepare are a film's own.
fn shot_of(by_c: bool, row: Row, drawn: Row, picture: &mut [u8], out: &mut [u8]) -> Shot {
    let n = fitting(at(row, column::LENGTH), picture.len());
    let p = &mut picture[0..n];
    bytes::picture(row, p);
    let letter = test_text::either(is_film(drawn), b'P', 0);
    let made = first(by_c, letter, row, drawn, p);
    bytes::poke(
        p,
        own(drawn, column::PIXEL_AT, NOWHERE),
        at(drawn, column::PIXEL_VALUE),
    );
    let shot = drawn_of(by_c, row, drawn, made, &p[..], out);
    let k = made.kept;
    joined(k.number, shot)
}

// Makes the film anew and enhances it.
fn enhanced_of(by_c: bool, row: Row, picture: &mut [u8]) -> Shot {
    let n = fitting(at(row, column::LENGTH), picture.len());
    let p = &mut picture[0..n];
    bytes::picture(row, p);
    let made = called(by_c, b'E', row, p);
    let k = made.kept;
    Shot {
        number: k.number,
        digest: made.digest,
    }
}

// A row of the films, over rooms for the largest picture and the largest output.
pub(crate) fn film(by_c: bool, row: Row, picture: &mut [u8], out: &mut [u8]) {
    let drawn = shot_of(by_c, row, row, picture, out);
    test_text::print(same(at(row, column::NO), drawn, enhanced_of(by_c, row, picture)));
}

// A row of the draws, with that of its film.
pub(crate) fn draw(by_c: bool, row: Row, drawn: Row, picture: &mut [u8], out: &mut [u8]) {
    shot_of(by_c, row, drawn, picture, out);
}
