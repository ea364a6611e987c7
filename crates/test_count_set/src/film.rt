// The films and the mappings: counting, mapping and, beside them, prepare, by the calls themselves or by those for C.
use crate::words;
use film_settings::Settings;
use pixel_grid::Axis;
use test_set::axes::Axes;
use test_set::film::drawn_number;
use test_set::kept::{Eleven, Kept};
use test_set::whole::{Row, at, fitting, minus, with};
use test_set::{axes, column, digest, kept, made};
use test_text::Text;

// The columns that these rows alone have. Of a film: how many counts are lent.
const COUNTS_ROOM: usize = 25;

// Of a mapping: how many counts are lent, what is changed in them, and the turns.
const LENT_ROOM: usize = 6;

const GAIN_AT: usize = 7;

const GAIN: usize = 8;

const LOSS_AT: usize = 9;

const LOSS: usize = 10;

const STEP: usize = 11;

const EACH: usize = 24;

const TURNS: usize = 25;

const OWN_EDITION: usize = 26;

const FIRST_TURN: usize = 27;

// 2^32.
const SPAN: u64 = 4294967296;

// What a call left: its answer, 0 where it accepted, and the digests of map, scratch and list.
#[derive(Clone, Copy)]
pub struct Left {
    pub number: u32,
    pub map: u64,
    pub scratch: u64,
    pub list: u64,
}

// Calls counting for C; answers its number.
fn count_c(t: Eleven, picture: &[u16], lent: &mut [u32]) -> u32 {
    c_counts::tz_count(
        t.width, t.height, picture, t.across, t.down, t.bins, t.min, t.max, lent,
    )
}

// Calls counting; answers its number.
fn call_count(by_c: bool, row: Row, picture: &[u16], lent: &mut [u32]) -> u32 {
    let t = kept::made(row);
    if by_c {
        return count_c(t, picture, lent);
    }
    let s: Settings = kept::settings(t);
    drawn_number(film_count::count_tiles(t.width, t.height, picture, s, lent))
}

// The lines of counting: the answer, the digests of picture and counts, and the counts.
fn counted_lines(no: u64, number: u32, picture: &[u16], lent: &[u32]) {
    test_text::print(test_text::one(b'C', no, number));
    test_text::print(test_text::two(b'c', no, digest::greys(picture), digest::words(lent)));
    test_text::print(test_text::small_words(b'n', no, lent));
}

// Makes the picture and the counts of a film, and counts; answers the call's number.
fn counted(by_c: bool, row: Row, picture: &mut [u16], lent: &mut [u32]) -> u32 {
    made::picture(row, picture);
    words::fill(lent);
    call_count(by_c, row, &picture[..], lent)
}

// What a call left.
fn left_by(number: u32, map: &[u16], scratch: &[u32], list: &[u64]) -> Left {
    Left {
        number,
        map: digest::greys(map),
        scratch: digest::words(scratch),
        list: digest::longs(list),
    }
}

// The line with a digest and those that a call left.
fn left_line(letter: u8, no: u64, first: u64, left: Left) -> Text {
    test_text::four(letter, no, first, left.map, left.scratch, left.list)
}

// Calls mapping for C. A refusal leaves the made record where it was.
fn map_c(
    no: u64,
    t: Eleven,
    lent: &[u32],
    map: &mut [u16],
    scratch: &mut [u32],
    list: &mut [u64],
) -> Kept {
    let mut numbers = kept::ten(t);
    let mut factor = t.factor;
    let made = axes::of(t);
    let columns = made.columns;
    let rows = made.rows;
    let mut column_edges = columns.edges;
    let mut column_centres = columns.centres;
    let mut row_edges = rows.edges;
    let mut row_centres = rows.centres;
    let mut limit = 0;
    let mut asked = 0.0;
    let mut used = 0.0;
    let number = c_counts::tz_map(
        t.film,
        t.width,
        t.height,
        t.across,
        t.down,
        t.bins,
        t.min,
        t.max,
        t.clip,
        t.factor,
        lent,
        map,
        scratch,
        &mut numbers,
        &mut factor,
        &mut limit,
        &mut asked,
        &mut used,
        &mut column_edges,
        &mut column_centres,
        &mut row_edges,
        &mut row_centres,
        list,
        t.edition,
    );
    let left = Axes {
        columns: Axis {
            edges: column_edges,
            centres: column_centres,
        },
        rows: Axis {
            edges: row_edges,
            centres: row_centres,
        },
    };
    kept::of_c(b'P', no, number, numbers, factor, left, limit, asked, used)
}

// Calls mapping, and prints its answer.
fn call_map(
    by_c: bool,
    row: Row,
    lent: &[u32],
    map: &mut [u16],
    scratch: &mut [u32],
    list: &mut [u64],
) -> Kept {
    let no = at(row, column::NO);
    let t = kept::made(row);
    if by_c {
        return map_c(no, t, lent, map, scratch, list);
    }
    let s: Settings = kept::settings(t);
    let answer = film_map::map_counts(t.film, t.width, t.height, s, lent, map, scratch, list);
    kept::of_prepared(b'P', no, t, answer)
}

// The lines behind mapping: the digests of counts, map, scratch and list, the map and the list.
fn mapped_lines(
    no: u64,
    number: u32,
    lent: &[u32],
    map: &[u16],
    scratch: &[u32],
    list: &[u64],
) -> Left {
    let left = left_by(number, map, scratch, list);
    test_text::print(left_line(b'm', no, digest::words(lent), left));
    test_text::print(test_text::small(b'q', no, map));
    test_text::print(test_text::small_longs(b'x', no, list));
    left
}

// Maps, and prints the answer and the lines behind it.
fn mapped(by_c: bool, row: Row, lent: &[u32], m: &mut [u16], s: &mut [u32], l: &mut [u64]) -> Left {
    let k = call_map(by_c, row, lent, m, s, l);
    mapped_lines(at(row, column::NO), k.number, lent, &m[..], &s[..], &l[..])
}

// Calls prepare, and prints its answer.
fn call_prepare(
    row: Row,
    picture: &[u16],
    map: &mut [u16],
    scratch: &mut [u32],
    list: &mut [u64],
) -> Kept {
    let t = kept::made(row);
    let s: Settings = kept::settings(t);
    let answer = film_prepare::prepare(t.film, t.width, t.height, picture, s, map, scratch, list);
    kept::of_prepared(b'P', at(row, column::NO), t, answer)
}

// Prepares, and prints the answer and the digests of picture, map, scratch and list.
fn prepared(row: Row, picture: &[u16], m: &mut [u16], s: &mut [u32], l: &mut [u64]) -> Left {
    let k = call_prepare(row, picture, m, s, l);
    let left = left_by(k.number, &m[..], &s[..], &l[..]);
    test_text::print(left_line(b'p', at(row, column::NO), digest::greys(picture), left));
    left
}

// Makes the list and maps.
fn mapped_listed(by_c: bool, row: Row, lent: &[u32], m: &mut [u16], s: &mut [u32]) -> Left {
    let mut list = made::list();
    let n = fitting(at(row, column::LIST_ROOM), 600);
    let l = &mut list[0..n];
    mapped(by_c, row, lent, m, s, l)
}

// Makes the list and prepares.
fn prepared_listed(row: Row, picture: &[u16], m: &mut [u16], s: &mut [u32]) -> Left {
    let mut list = made::list();
    let n = fitting(at(row, column::LIST_ROOM), 600);
    let l = &mut list[0..n];
    prepared(row, picture, m, s, l)
}

// Makes map, scratch and list and maps.
fn mapped_anew(by_c: bool, row: Row, lent: &[u32]) -> Left {
    let mut map = [0; 65536];
    let n = fitting(at(row, column::MAP_ROOM), 65536);
    let m = &mut map[0..n];
    made::map(row, m);
    let mut scratch = made::scratch();
    let k = fitting(at(row, column::SCRATCH_ROOM), 4200);
    let s = &mut scratch[0..k];
    mapped_listed(by_c, row, lent, m, s)
}

// Makes map, scratch and list and prepares.
fn prepared_anew(row: Row, picture: &[u16]) -> Left {
    let mut map = [0; 65536];
    let n = fitting(at(row, column::MAP_ROOM), 65536);
    let m = &mut map[0..n];
    made::map(row, m);
    let mut scratch = made::scratch();
    let k = fitting(at(row, column::SCRATCH_ROOM), 4200);
    let s = &mut scratch[0..k];
    prepared_listed(row, picture, m, s)
}

// Whether map, scratch and list have the same digests: 1, else 0.
fn alike(a: Left, b: Left) -> u32 {
    if a.map != b.map {
        return 0;
    }
    if a.scratch != b.scratch {
        return 0;
    }
    if a.list != b.list {
        return 0;
    }
    1
}

// The line K: whether mapping and prepare left the same, where both accepted.
fn same(no: u64, a: Left, b: Left) -> Text {
    if a.number != 0 {
        return test_text::blank();
    }
    if b.number != 0 {
        return test_text::blank();
    }
    test_text::one(b'K', no, alike(a, b))
}

// A row of the films, over rooms for the largest picture and the most counts.
pub(crate) fn film(by_c: bool, row: Row, picture: &mut [u16], counts: &mut [u32]) {
    let no = at(row, column::NO);
    let n = fitting(at(row, column::LENGTH), picture.len());
    let p = &mut picture[0..n];
    let k = fitting(at(row, COUNTS_ROOM), counts.len());
    let c = &mut counts[0..k];
    let number = counted(by_c, row, p, c);
    counted_lines(no, number, &p[..], &c[..]);
    let a = mapped_anew(by_c, row, &c[..]);
    test_text::print(same(no, a, prepared_anew(row, &p[..])));
}

// Counts the film of a mapping, printing nothing.
fn counted_case(by_c: bool, case: Row, picture: &mut [u16], counts: &mut [u32]) {
    let n = fitting(at(case, column::LENGTH), picture.len());
    let p = &mut picture[0..n];
    let k = fitting(at(case, COUNTS_ROOM), counts.len());
    let c = &mut counts[0..k];
    counted(by_c, case, p, c);
}

// Changes the counts as the row says.
fn changed(row: Row, lent: &mut [u32]) {
    words::gain(lent, at(row, GAIN_AT), at(row, GAIN));
    words::gain(lent, at(row, LOSS_AT), minus(SPAN, at(row, LOSS)));
    words::gain_each(lent, at(row, STEP), at(row, EACH));
}

// The row with the edition of a mapping in a film's place. There stood what counts gain, which is no longer asked.
fn edited(row: Row) -> Row {
    with(row, column::EDITION, at(row, OWN_EDITION))
}

// The row with the clip setting and the edition of a turn.
fn turned(row: Row, turn: u64) -> Row {
    let place = std::num::wrapping_add_usize(FIRST_TURN, (turn % 8 * 3) as usize);
    let clip = with(row, column::CLIP, at(row, place));
    let factor = with(
        clip,
        column::FACTOR,
        at(row, std::num::wrapping_add_usize(place, 1)),
    );
    with(
        factor,
        column::EDITION,
        at(row, std::num::wrapping_add_usize(place, 2)),
    )
}

// The turns behind the first, each over the map, scratch and list that the one before left.
fn turns(
    by_c: bool,
    row: Row,
    count: u64,
    lent: &[u32],
    m: &mut [u16],
    s: &mut [u32],
    l: &mut [u64],
) {
    for i in 0..count {
        mapped(by_c, turned(row, i), lent, m, s, l);
    }
}

// Makes the list and maps in turn.
fn listed_turns(by_c: bool, row: Row, lent: &[u32], m: &mut [u16], s: &mut [u32]) {
    let mut list = made::list();
    let n = fitting(at(row, column::LIST_ROOM), 600);
    let l = &mut list[0..n];
    mapped(by_c, row, lent, m, s, l);
    turns(by_c, row, at(row, TURNS), lent, m, s, l);
}

// Makes map, scratch and list and maps in turn.
fn all_turns(by_c: bool, row: Row, lent: &[u32]) {
    let mut map = [0; 65536];
    let n = fitting(at(row, column::MAP_ROOM), 65536);
    let m = &mut map[0..n];
    made::map(row, m);
    let mut scratch = made::scratch();
    let k = fitting(at(row, column::SCRATCH_ROOM), 4200);
    let s = &mut scratch[0..k];
    listed_turns(by_c, row, lent, m, s);
}

// A row of the mappings, with that of its film.
pub(crate) fn mappings(by_c: bool, case: Row, row: Row, picture: &mut [u16], counts: &mut [u32]) {
    counted_case(by_c, case, picture, counts);
    let n = fitting(at(row, LENT_ROOM), counts.len());
    let c = &mut counts[0..n];
    changed(row, c);
    all_turns(by_c, edited(row), &c[..]);
}
