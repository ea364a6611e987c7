// The films and the draws: prepare, draw and enhance.
ghost use Rattle.std.specs.Prelude.{◌≡◌, length};
ghost use Rattle.test_set.specs.Filmset.{digest_of, is_film_of, own_of, window_of, drawn_number_of, field_column, handed_of, joined_of, same_line, left_of, left_alone};

use crate::axes::Axes;
use crate::kept::{Eleven, Kept};
use crate::whole::{Row, at, fitting, low, with, word};
use crate::{axes, column, digest, kept, made};
use base_rows::Refusal;
use film_settings::Window;
use pixel_grid::Axis;
use test_text::Text;

// What an output of draw counts up from.
pub const OUTPUT_BASE: u64 = 50000;

// The letter of a film's row.
pub const FILM: u64 = 70;

// How many fields of a record a draw may change.
const FIELDS: u64 = 11;

// The number of no field of a record, and of no wide one.
const NO_FIELD: u64 = 12;

// The place of no entry.
pub const NOWHERE: u64 = 18446744073709551615;

// What prepare or enhance left: the answer with the record for draw, the picture's digest, and the map.
#[derive(Clone, Copy)]
pub struct Made {
    pub kept: Kept,
    pub digest: u64,
    pub map: [u16; 65536],
}

// What a call left besides picture, map and scratch: the answer with the record for draw, and of prepare's list the digest and the line.
#[derive(Clone, Copy)]
pub struct Left {
    pub kept: Kept,
    pub list: u64,
    pub line: Text,
}

// What came of a row: 0 where each call accepted, and the digest of the rendered pixels.
#[derive(Clone, Copy)]
pub struct Shot {
    pub number: u32,
    pub digest: u64,
}

// Whether a row is a film's: it is drawn whole, with nothing changed before.
pub fn is_film(drawn: Row) -> bool
    ensures { result ≡ is_film_of drawn }
{
    at(drawn, column::LETTER) == FILM
}

// The number in a column that draws alone have, or what stands for it where a film is drawn whole.
pub fn own(drawn: Row, place: usize, whole: u64) -> u64
    ensures { result ≡ own_of drawn place whole }
{
    if is_film(drawn) {
        return whole;
    }
    at(drawn, place)
}

pub fn window(drawn: Row) -> Window
    ensures { result ≡ window_of drawn }
{
    Window {
        left: low(own(drawn, column::LEFT, 0)),
        top: low(own(drawn, column::TOP, 0)),
        width: word(drawn, column::WIDTH),
        height: word(drawn, column::HEIGHT),
    }
}

// What prepare left, with its list.
pub fn listed(no: u64, kept: Kept, list: &[u64]) -> Left
    ensures { result ≡ left_of no kept list.now }
{
    Left {
        kept,
        list: digest::longs(list),
        line: test_text::small_longs(b'x', no, list),
    }
}

// What enhance left, which has no list.
pub fn unlisted(kept: Kept) -> Left
    ensures { result ≡ left_alone kept }
{
    Left {
        kept,
        list: 0,
        line: test_text::blank(),
    }
}

// Calls prepare for C. A refusal leaves the made record where it was.
fn prepare_c(
    letter: u8,
    no: u64,
    t: Eleven,
    picture: &[u16],
    map: &mut [u16],
    scratch: &mut [u32],
    list: &mut [u64],
) -> Kept {
    let mut numbers = kept::ten(t);
    let mut factor = t.factor;
    let made = axes::of(t);
    let columns = made.columns;
    let rows = made.rows;
    let mut column_edges = columns.edges;
    let mut column_centres = columns.centres;
    let mut row_edges = rows.edges;
    let mut row_centres = rows.centres;
    let mut limit = 0;
    let mut asked = 0.0;
    let mut used = 0.0;
    let number = c_films::films::tz_prepare(
        t.film,
        t.width,
        t.height,
        picture,
        t.across,
        t.down,
        t.bins,
        t.min,
        t.max,
        t.clip,
        t.factor,
        map,
        scratch,
        &mut numbers,
        &mut factor,
        &mut limit,
        &mut asked,
        &mut used,
        &mut column_edges,
        &mut column_centres,
        &mut row_edges,
        &mut row_centres,
        list,
        t.edition,
    );
    let left = Axes {
        columns: Axis {
            edges: column_edges,
            centres: column_centres,
        },
        rows: Axis {
            edges: row_edges,
            centres: row_centres,
        },
    };
    kept::of_c(
        letter, no, number, numbers, factor, left, limit, asked, used,
    )
}

// Calls prepare, and prints its answer under the letter.
fn prepare_by(
    by_c: bool,
    letter: u8,
    row: Row,
    picture: &[u16],
    map: &mut [u16],
    scratch: &mut [u32],
    list: &mut [u64],
) -> Kept {
    let no = at(row, column::NO);
    let t = kept::made(row);
    if by_c {
        return prepare_c(letter, no, t, picture, map, scratch, list);
    }
    let s = kept::settings(t);
    let answer = film_prepare::prepare(t.film, t.width, t.height, picture, s, map, scratch, list);
    kept::of_prepared(letter, no, t, answer)
}

// Makes the list and calls prepare, and prints its answer under the letter.
fn prepare_listed(
    by_c: bool,
    letter: u8,
    row: Row,
    picture: &[u16],
    map: &mut [u16],
    scratch: &mut [u32],
) -> Left {
    let mut list = made::list();
    let n = fitting(at(row, column::LIST_ROOM), 600);
    let l = &mut list[0..n];
    let kept = prepare_by(by_c, letter, row, picture, map, scratch, l);
    listed(at(row, column::NO), kept, &l[..])
}

// Calls enhance for C.
fn enhance_c(
    no: u64,
    t: Eleven,
    picture: &mut [u16],
    map: &mut [u16],
    scratch: &mut [u32],
) -> Kept {
    let mut limit = 0;
    let mut asked = 0.0;
    let mut used = 0.0;
    let number = c_films::films::tz_enhance(
        t.width, t.height, picture, t.across, t.down, t.bins, t.min, t.max, t.clip, t.factor, map,
        scratch, &mut limit, &mut asked, &mut used, t.edition,
    );
    let k = kept::of_made(number, t);
    test_text::print(kept::line(b'E', no, k, limit, asked, used));
    k
}

// Calls enhance, and prints its answer.
fn enhance_by(
    by_c: bool,
    row: Row,
    picture: &mut [u16],
    map: &mut [u16],
    scratch: &mut [u32],
) -> Kept {
    let no = at(row, column::NO);
    let t = kept::made(row);
    if by_c {
        return enhance_c(no, t, picture, map, scratch);
    }
    let s = kept::settings(t);
    let answer = film_prepare::enhance(t.width, t.height, picture, s, map, scratch);
    kept::of_enhanced(no, t, answer)
}

// Calls enhance under the letter E, else prepare.
fn call_by(
    by_c: bool,
    letter: u8,
    row: Row,
    picture: &mut [u16],
    map: &mut [u16],
    scratch: &mut [u32],
) -> Left {
    if letter == b'E' {
        return unlisted(enhance_by(by_c, row, picture, map, scratch));
    }
    prepare_listed(by_c, letter, row, &picture[..], map, scratch)
}

// The digests of picture, map and scratch behind a call, behind prepare also that of its list, and what it wrote; nothing under the
// letter 0. Answers the picture's.
fn called_lines(
    letter: u8,
    no: u64,
    list: u64,
    line: Text,
    picture: &[u16],
    map: &[u16],
    scratch: &[u32],
) -> u64
    ensures { result ≡ digest_of picture.now }
{
    let digest = digest::greys(picture);
    if letter == 0 {
        return digest;
    }
    let b = digest::greys(map);
    let c = digest::words(scratch);
    if letter == b'E' {
        test_text::print(test_text::three(b'e', no, digest, b, c));
        test_text::print(test_text::small(b'i', no, picture));
        return digest;
    }
    test_text::print(test_text::four(b'p', no, digest, b, c, list));
    test_text::print(test_text::small(b'm', no, map));
    test_text::print(line);
    digest
}

// Makes map and scratch and calls, and prints what comes of it under the letter.
pub fn called(by_c: bool, letter: u8, row: Row, picture: &mut [u16]) -> Made
    ensures { (length picture.new ≡ length picture.old) × (result.digest ≡ digest_of picture.new) }
{
    let mut map = [0; 65536];
    let n = fitting(at(row, column::MAP_ROOM), 65536);
    let m = &mut map[0..n];
    made::map(row, m);
    let mut scratch = made::scratch();
    let k = fitting(at(row, column::SCRATCH_ROOM), 4200);
    let s = &mut scratch[0..k];
    let left = call_by(by_c, letter, row, picture, m, s);
    let line = left.line;
    let digest = called_lines(
        letter,
        at(row, column::NO),
        left.list,
        line,
        &picture[..],
        &m[..],
        &s[..],
    );
    let kept = left.kept;
    Made { kept, digest, map }
}

// Calls draw for C; answers its number.
fn draw_c(drawn: Row, t: Eleven, k: Kept, picture: &[u16], map: &[u16], out: &mut [u16]) -> u32 {
    let eleven = k.eleven;
    let axes = k.axes;
    let columns = axes.columns;
    let rows = axes.rows;
    let numbers = kept::ten(eleven);
    let column_edges = columns.edges;
    let column_centres = columns.centres;
    let row_edges = rows.edges;
    let row_centres = rows.centres;
    let win = window(drawn);
    c_films::films::tz_draw(
        word(drawn, column::FILM),
        t.width,
        t.height,
        picture,
        t.across,
        t.down,
        t.bins,
        t.min,
        t.max,
        t.clip,
        t.factor,
        &numbers,
        eleven.factor,
        win.left,
        win.top,
        win.width,
        win.height,
        map,
        out,
        &column_edges,
        &column_centres,
        &row_edges,
        &row_centres,
        t.edition,
    )
}

pub fn drawn_number(d: Result<(), Refusal>) -> u32
    ensures { result ≡ drawn_number_of d }
{
    match d {
        Ok(()) => 0,
        Err(r) => r.number(),
    }
}

// Calls draw with the record; answers its number.
fn draw_by(
    by_c: bool,
    drawn: Row,
    t: Eleven,
    k: Kept,
    picture: &[u16],
    map: &[u16],
    out: &mut [u16],
) -> u32 {
    if by_c {
        return draw_c(drawn, t, k, picture, map, out);
    }
    let s = kept::settings(t);
    let record = kept::record(k);
    let win = window(drawn);
    drawn_number(film_draw::draw(
        word(drawn, column::FILM),
        t.width,
        t.height,
        picture,
        s,
        record,
        win,
        map,
        out,
    ))
}

// The column of a record's field in a film's row: film, width and height stand before the picture's columns, the settings behind, and the
// edition last of all.
fn place(field: u64) -> usize
    ensures { result ≡ field_column field }
{
    if field < 3 {
        return (field + 2) as usize;
    }
    if field == 10 {
        return column::EDITION;
    }
    (field % 16 + 9) as usize
}

// What is handed to draw: the record that prepare left, of whose axes an entry may be changed, or the made one with a field changed
// and the axes as they were.
pub fn handed(row: Row, drawn: Row, k: Kept) -> Kept
    ensures { result ≡ handed_of row drawn k }
{
    let field = own(drawn, column::FIELD, NO_FIELD);
    let value = at(drawn, column::VALUE);
    if FIELDS <= field {
        let eleven = k.eleven;
        let left = k.axes;
        return Kept {
            number: k.number,
            eleven,
            axes: axes::changed(left, field, value),
        };
    }
    Kept {
        number: k.number,
        eleven: kept::made(with(row, place(field), value)),
        axes: axes::of(kept::made(row)),
    }
}

// The lines of draw: the answer, the digests of picture, map and output, and the output.
fn drawn_lines(drawn: Row, number: u32, picture: &[u16], map: &[u16], out: &[u16]) -> Shot {
    let no = at(drawn, column::NO);
    let of_film = is_film(drawn);
    let digest = digest::greys(out);
    test_text::print(test_text::one(test_text::either(of_film, b'D', b'W'), no, number));
    test_text::print(test_text::three(
        test_text::either(of_film, b'd', b'w'),
        no,
        digest::greys(picture),
        digest::greys(map),
        digest,
    ));
    test_text::print(test_text::small(test_text::either(of_film, b'o', b'v'), no, out));
    Shot { number, digest }
}

// Makes the output and draws from the map.
fn drawn_from(
    by_c: bool,
    drawn: Row,
    t: Eleven,
    k: Kept,
    picture: &[u16],
    map: &[u16],
    out: &mut [u16],
) -> Shot {
    let n = fitting(at(drawn, column::OUT_ROOM), out.len());
    let o = &mut out[0..n];
    made::output(o, OUTPUT_BASE);
    let number = draw_by(by_c, drawn, t, k, picture, map, o);
    drawn_lines(drawn, number, picture, map, &o[..])
}

// Changes the map where the row says so, and draws.
fn drawn_of(
    by_c: bool,
    row: Row,
    drawn: Row,
    made: Made,
    picture: &[u16],
    out: &mut [u16],
) -> Shot {
    let mut map = made.map;
    let k = made.kept;
    let whole: &mut [u16] = &mut map;
    let n = fitting(at(row, column::MAP_ROOM), whole.len());
    let m = &mut whole[0..n];
    made::poke(
        m,
        own(drawn, column::MAP_AT, NOWHERE),
        at(drawn, column::MAP_VALUE),
    );
    let kept = handed(row, drawn, k);
    drawn_from(by_c, drawn, kept::made(row), kept, picture, &m[..], out)
}

// What came of two calls, the second of which rendered.
pub fn joined(number: u32, shot: Shot) -> Shot
    ensures { result ≡ joined_of number shot }
{
    if number == 0 {
        return shot;
    }
    Shot { number, digest: 0 }
}

// Makes the film, prepares it, and draws; the lines of prepare are a film's own.
fn shot_of(by_c: bool, row: Row, drawn: Row, picture: &mut [u16], out: &mut [u16]) -> Shot {
    let n = fitting(at(row, column::LENGTH), picture.len());
    let p = &mut picture[0..n];
    made::picture(row, p);
    let letter = test_text::either(is_film(drawn), b'P', 0);
    let made = called(by_c, letter, row, p);
    made::poke(
        p,
        own(drawn, column::PIXEL_AT, NOWHERE),
        at(drawn, column::PIXEL_VALUE),
    );
    let shot = drawn_of(by_c, row, drawn, made, &p[..], out);
    let k = made.kept;
    joined(k.number, shot)
}

// Makes the film anew and enhances it.
fn enhanced_of(by_c: bool, row: Row, picture: &mut [u16]) -> Shot {
    let n = fitting(at(row, column::LENGTH), picture.len());
    let p = &mut picture[0..n];
    made::picture(row, p);
    let made = called(by_c, b'E', row, p);
    let k = made.kept;
    Shot {
        number: k.number,
        digest: made.digest,
    }
}

// The line K: whether two pictures have the same digest, where all calls accepted.
pub fn same(no: u64, a: Shot, b: Shot) -> Text
    ensures { result ≡ same_line no a b }
{
    if a.number != 0 {
        return test_text::blank();
    }
    if b.number != 0 {
        return test_text::blank();
    }
    if a.digest == b.digest {
        return test_text::one(b'K', no, 1);
    }
    test_text::one(b'K', no, 0)
}

// A row of the films, over rooms for the largest picture and the largest output.
pub(crate) fn film(by_c: bool, row: Row, picture: &mut [u16], out: &mut [u16])
    ensures { (length picture.new ≡ length picture.old) × (length out.new ≡ length out.old) }
{
    let drawn = shot_of(by_c, row, row, picture, out);
    test_text::print(same(at(row, column::NO), drawn, enhanced_of(by_c, row, picture)));
}

// A row of the draws, with that of its film.
pub(crate) fn draw(by_c: bool, row: Row, drawn: Row, picture: &mut [u16], out: &mut [u16])
    ensures { (length picture.new ≡ length picture.old) × (length out.new ≡ length out.old) }
{
    shot_of(by_c, row, drawn, picture, out);
}
