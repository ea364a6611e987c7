// The tiles that a pixel's rule uses, from its two places: those whose weight is above 0.
use pixel_place::Place;
use test_set::column;
use test_set::whole::{Row, plus, word};
use test_text::Text;

// The place of a column that is none of the film's.
fn nowhere() -> Place {
    Place {
        lower: 0,
        upper: 0,
        lowerweight: 0,
        upperweight: 0,
        span: 0,
    }
}

// The place of column (or row) x, where the side is not shorter than its tiles are many.
fn place(side: u32, tiles: u32, x: u32) -> Place {
    if tiles < 2 {
        return nowhere();
    }
    if 16 < tiles {
        return nowhere();
    }
    if side < tiles {
        return nowhere();
    }
    if 4096 < side {
        return nowhere();
    }
    if x < side {
        return pixel_place::locate(side, tiles, x);
    }
    nowhere()
}

// The product of two numbers of 32 bits.
pub(crate) fn times(a: u32, b: u32) -> u64 {
    a as u64 * b as u64
}

// The line with a tile and its weight, if it has one.
fn corner(t: Text, tile: u64, weight: u64) -> Text {
    if weight == 0 {
        return t;
    }
    test_text::field(test_text::field(t, tile), weight)
}

// The line with the tiles of one tile row, whose weight this is: that on the left, then that on the right.
fn side(t: Text, first: u64, weight: u32, column: Place) -> Text {
    let left = corner(
        t,
        plus(first, column.lower as u64),
        times(weight, column.lowerweight),
    );
    corner(
        left,
        plus(first, column.upper as u64),
        times(weight, column.upperweight),
    )
}

// The tiles and their weights: upper left, upper right, lower left, lower right.
pub(crate) fn used(no: u64, film: Row, x: u32, y: u32) -> Text {
    let across = word(film, column::ACROSS);
    let column = place(word(film, column::WIDTH), across, x);
    let row = place(word(film, column::HEIGHT), word(film, column::DOWN), y);
    let above = side(
        test_text::start(b'U', no),
        times(row.lower, across),
        row.lowerweight,
        column,
    );
    test_text::end(side(above, times(row.upper, across), row.upperweight, column))
}
