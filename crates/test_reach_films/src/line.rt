// The columns of a scratch's row, and the lines that it prints.
use crate::place;
use test_set::column;
use test_set::whole::{Row, at, word};
use test_text::Text;

// The film row, the pixel that the second film has otherwise and its grey, and the pixel that is looked at.
pub const CASE: usize = 2;

const POKE_AT: usize = 3;

const POKE_VALUE: usize = 4;

const X: usize = 5;

const Y: usize = 6;

// What came of one film: the answers of prepare, draw and enhance, 0 where they accepted, and the pixel's grey as draw and as enhance left it.
#[derive(Clone, Copy)]
pub struct Shown {
    pub prepared: u32,
    pub drawn: u32,
    pub by_draw: u32,
    pub enhanced: u32,
    pub by_enhance: u32,
}

// The column of the pixel that is looked at.
pub(crate) fn x(scratch: Row) -> u32 {
    word(scratch, X)
}

// And its row.
pub(crate) fn y(scratch: Row) -> u32 {
    word(scratch, Y)
}

// The film row with the scratch's pixel in the place of its own: what the film rule makes of it differs there alone.
pub(crate) fn poked(film: Row, scratch: Row) -> Row {
    let place = test_set::whole::with(film, column::POKE_AT, at(scratch, POKE_AT));
    test_set::whole::with(place, column::POKE_VALUE, at(scratch, POKE_VALUE))
}

// The line of one film.
fn shown_line(letter: u8, no: u64, s: Shown) -> Text {
    let numbers = [s.prepared, s.drawn, s.by_draw, s.enhanced, s.by_enhance];
    test_text::end(test_text::word_fields(test_text::start(letter, no), &numbers))
}

// 1 where both films show the same grey, as draw and as enhance left it, else 0.
fn same(a: Shown, b: Shown) -> u32 {
    if a.by_draw == b.by_draw && a.by_enhance == b.by_enhance {
        1
    } else {
        0
    }
}

// All lines of a scratch: the tiles that the pixel's rule uses, both films, and whether they show the same.
pub(crate) fn lines(film: Row, scratch: Row, a: Shown, b: Shown) {
    let no = at(scratch, column::NO);
    test_text::print(place::used(no, film, x(scratch), y(scratch)));
    test_text::print(shown_line(b'A', no, a));
    test_text::print(shown_line(b'B', no, b));
    test_text::print(test_text::one(b'K', no, same(a, b)));
}
