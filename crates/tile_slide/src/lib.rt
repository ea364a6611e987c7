// The region around a pixel, and its counts as it moves right.
#![tactic(auto)]

ghost use Rattle.std.specs.Prelude.{◌≡◌, [], ◌∷◌, ◌≤◌};
ghost use Rattle.tile_count.specs.Tally.{greys_of, added_of};
ghost use Rattle.tile_slide.specs.Slide.{first_of, end_of, strip, region_rect, lost_of, gained_of, taken_of, TakeAsks, TakeRectAsks, RegionAsks, StripAsks, SlideAsks, GainAsks, Slid};

use tile_count::{Binning, Rect};

// The first column (or row) of the region around x.
fn first_of(side: u32, x: u32) -> u32
    ensures { result ≡ first_of side x }
{
    x.saturating_sub(side / 2)
}

// The column (or row) after its last.
fn end_of(side: u32, most: u32, x: u32) -> u32
    requires { (side ≤ 63) × (x ≤ 4096) }
    ensures { result ≡ end_of side most x }
{
    (x + side / 2 + 1).min(most)
}

// Takes one grey from the counts.
fn take_one(grey: u16, by: Binning, counts: &mut [u32])
    requires { TakeAsks (grey ∷ []) by.min by.max by.bins by.factor counts.old }
    ensures { counts.new ≡ taken_of by.min by.max by.bins counts.old (grey ∷ []) }
{
    let k = tile_bin::bin_by(grey as u32, by.min, by.factor) as usize;
    counts[k] -= 1;
}

// Takes the greys of one row from the counts.
fn take_row(row: &[u16], by: Binning, counts: &mut [u32])
    requires { TakeAsks row.now by.min by.max by.bins by.factor counts.old }
    ensures { counts.new ≡ taken_of by.min by.max by.bins counts.old row.now }
{
    for grey in row {
        take_one(*grey, by, counts);
    }
}

// Takes the greys of a rectangle from the counts, row by row.
fn take_rect(picture: &[u16], stride: usize, rect: Rect, by: Binning, counts: &mut [u32])
    requires { TakeRectAsks picture.now stride rect by.min by.max by.bins by.factor counts.old }
    ensures { counts.new ≡ taken_of by.min by.max by.bins counts.old (greys_of picture.now stride rect) }
{
    for y in 0..rect.height {
        take_row(tile_count::row_at(picture, stride, rect, y), by, counts);
    }
}

// The columns from a up to e of the rows of the region around row y.
fn strip(height: u32, side: u32, y: u32, a: u32, e: u32) -> Rect
    requires { StripAsks height side y a e }
    ensures { result ≡ strip height side y a e }
{
    let top = first_of(side, y) as usize;
    let bottom = end_of(side, height, y) as usize;
    Rect {
        left: a as usize,
        top,
        width: (e - a) as usize,
        height: bottom - top,
    }
}

// The region around the pixel in column x and row y.
pub fn region(width: u32, height: u32, side: u32, x: u32, y: u32) -> Rect
    requires { RegionAsks width height side x y }
    ensures { result ≡ region_rect width height side x y }
{
    let left = first_of(side, x);
    let right = end_of(side, width, x);
    strip(height, side, y, left, right)
}

// Takes the column that the region around x loses as it moves right, where it loses one.
fn lose(
    picture: &[u16],
    width: u32,
    height: u32,
    side: u32,
    x: u32,
    y: u32,
    by: Binning,
    counts: &mut [u32],
)
    requires { SlideAsks picture.now width height side x y by.min by.max by.bins by.factor counts.old }
    ensures { counts.new ≡ taken_of by.min by.max by.bins counts.old (greys_of picture.now width (lost_of height side x y)) }
{
    let a = first_of(side, x);
    let e = first_of(side, x + 1);
    if a != e {
        let column = strip(height, side, y, a, e);
        take_rect(picture, width as usize, column, by, counts);
    }
}

// Adds the column that the region around x gains as it moves right, where it gains one. A column is too narrow for the four counts of `tile_count::count`.
fn gain(
    picture: &[u16],
    width: u32,
    height: u32,
    side: u32,
    x: u32,
    y: u32,
    by: Binning,
    counts: &mut [u32],
)
    requires { GainAsks picture.now width height side x y by.min by.max by.bins by.factor counts.old }
    ensures { counts.new ≡ added_of by.min by.max by.bins counts.old (greys_of picture.now width (gained_of width height side x y)) }
{
    let a = end_of(side, width, x);
    let e = end_of(side, width, x + 1);
    if a != e {
        let column = strip(height, side, y, a, e);
        tile_count::count_plain(picture, width as usize, column, by, counts);
    }
}

// Moves the counts of the region around x to those of the region around x + 1: one column is dropped, another added.
pub fn slide(
    picture: &[u16],
    width: u32,
    height: u32,
    side: u32,
    x: u32,
    y: u32,
    by: Binning,
    counts: &mut [u32],
)
    requires { SlideAsks picture.now width height side x y by.min by.max by.bins by.factor counts.old }
    ensures { Slid picture.now width height side x y by.min by.max by.bins counts.old counts.new }
{
    lose(picture, width, height, side, x, y, by, counts);
    gain(picture, width, height, side, x, y, by, counts);
}
