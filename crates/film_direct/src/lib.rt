// A plain engine: for each pixel the tiles that it needs are counted straight from the film, clipped and summed. No mappings are kept.
// It checks the fast engine, so it counts by itself, keeps no table and renders a pixel at a time; with the fast one it has the rules' leaves in common.
#![tactic(auto)]

ghost use Rattle.std.specs.Prelude.{◌≡◌, [], ◌∷◌, ◌*◌, ◌≤◌, length, get_or};
ghost use Rattle.base_lists.specs.Lists.{joined, onto, filled};
ghost use Rattle.base_rows.specs.Refuse.{first};
ghost use Rattle.base_rows.specs.Given.{given, said};
ghost use Rattle.tile_bin.specs.Binning.{bin_of};
ghost use Rattle.tile_count.specs.Tally.{greys_of, counts_of, added_of, CountRowAsks, AddAsks, CountRectAsks};
ghost use Rattle.film_settings.specs.Settings.{bins_of};
ghost use Rattle.film_prepare.specs.Prepare.{paint_leaves};
ghost use Rattle.film_direct.specs.Direct.{direct_work_rows, direct_rows, rule_row, direct_of, corner_value, TileValueAsks, DirectBinAsks, DirectPixelAsks, DirectRowAsks, DirectPaintAsks, BehindBins, RuleGreyed};

use base_rows::Refusal;
use film_settings::{Footer, Settings};
use tile_count::Rect;

// The first of the refusals 12, 17 and 13 that applies.
#[tactic(auto, unfolding(base_rows::specs::Refuse::first, crate::specs::Direct::direct_work_rows))]
fn work_refusal(
    width: u32,
    height: u32,
    picture: &[u16],
    s: Settings,
    scratch: usize,
    target: usize,
) -> Result<(), Refusal>
    requires { (width ≤ 4096) × (height ≤ 4096) }
    ensures { given result ≡ first (direct_work_rows width height picture.now s scratch target) }
{
    if scratch < (film_settings::bins(s) as usize) {
        return Err(Refusal::ScratchShort);
    }
    if target != (width as usize) * (height as usize) {
        return Err(Refusal::OutputLength);
    }
    if !base_range::all_within(picture, s.min, s.max) {
        return Err(Refusal::PixelOutside);
    }
    Ok(())
}

// The first of the refusals 1 to 9, 31, 10, 12, 17 and 13 that applies.
fn refusal(
    width: u32,
    height: u32,
    picture: &[u16],
    s: Settings,
    scratch: usize,
    target: usize,
) -> Result<(), Refusal>
    ensures { given result ≡ first (direct_rows width height picture.now s scratch target) }
{
    film_settings::setting_refusal(width, height, picture.len(), s)?;
    work_refusal(width, height, picture, s, scratch, target)
}

// Adds one grey to the counts; the factor is that of the range and the bins.
fn add_grey(grey: u32, min: u32, max: u32, bins: u32, factor: u32, counts: &mut [u32])
    requires { CountRowAsks (grey ∷ []) min max bins factor counts.old }
    ensures { counts.new ≡ added_of min max bins counts.old (grey ∷ []) }
{
    let k = tile_bin::bin_by(grey, min, factor) as usize;
    counts[k] += 1;
}

// Adds the greys of one row of a tile to the counts, a grey at a time.
fn add_row(row: &[u16], min: u32, max: u32, bins: u32, factor: u32, counts: &mut [u32])
    requires { CountRowAsks row.now min max bins factor counts.old }
    ensures { counts.new ≡ added_of min max bins counts.old row.now }
{
    for grey in row {
        add_grey(*grey as u32, min, max, bins, factor, counts);
    }
}

// Adds the greys of a tile to the counts, row by row straight from the film.
fn add_rows(
    picture: &[u16],
    stride: usize,
    rect: Rect,
    min: u32,
    max: u32,
    bins: u32,
    factor: u32,
    counts: &mut [u32],
)
    requires { AddAsks picture.now stride rect min max bins factor counts.old }
    ensures { counts.new ≡ added_of min max bins counts.old (greys_of picture.now stride rect) }
{
    for y in 0..rect.height {
        let from = (rect.top + y) * stride + rect.left;
        let to = from + rect.width;
        add_row(&picture[from..to], min, max, bins, factor, counts);
    }
}

// The counts of a tile in the first `bins` entries; entries behind keep their contents.
fn count_tile(
    picture: &[u16],
    stride: usize,
    rect: Rect,
    min: u32,
    max: u32,
    bins: u32,
    counts: &mut [u32],
)
    requires { CountRectAsks picture.now stride rect min max bins (length counts.old) }
    ensures { counts.new ≡ onto counts.old (counts_of min max bins (greys_of picture.now stride rect)) }
{
    base_lists::clear(counts, bins as usize);
    let factor = tile_bin::bin_factor(min, max, bins);
    add_rows(picture, stride, rect, min, max, bins, factor, counts);
}

// The mapped value of bin k by the tile in row j and column i, counted anew. The tile's clipped counts stay in the front of the scratch.
fn tile_value(
    picture: &[u16],
    width: u32,
    height: u32,
    s: Settings,
    j: u32,
    i: u32,
    k: usize,
    scratch: &mut [u32],
) -> u32
    requires { TileValueAsks width height picture.now s j i k (length scratch.old) }
    ensures { BehindBins s scratch.old scratch.new × (result ≡ corner_value width height picture.now s j i k) }
{
    let at = (j * s.across + i) as usize;
    let rect = film_tiles::tile_rect(width, height, s.across, s.down, at);
    let bins = film_settings::bins(s);
    let each = bins as usize;
    let pixels = (rect.width * rect.height) as u32;
    count_tile(picture, width as usize, rect, s.min, s.max, bins, scratch);
    tile_value::value(
        s.clip,
        pixels,
        s.min,
        s.max,
        k,
        &mut scratch[..each],
        s.edition,
    )
}

// The bin of the grey at `at`.
fn bin_at(picture: &[u16], s: Settings, at: usize) -> usize
    requires { DirectBinAsks picture.now s at }
    ensures { result ≡ bin_of s.min s.max (bins_of s) (get_or picture.now at 0) }
{
    let factor = tile_bin::bin_factor(s.min, s.max, film_settings::bins(s));
    tile_bin::bin_by(picture[at] as u32, s.min, factor) as usize
}

// The grey of the pixel in column x and row y by the rule, from the four tiles of its places.
fn pixel(
    picture: &[u16],
    width: u32,
    height: u32,
    s: Settings,
    x: u32,
    y: u32,
    scratch: &mut [u32],
) -> u32
    requires { DirectPixelAsks width height picture.now s x y (length scratch.old) }
    ensures { BehindBins s scratch.old scratch.new × RuleGreyed width height picture.now s x y result }
{
    let column = pixel_place::locate(width, s.across, x);
    let row = pixel_place::locate(height, s.down, y);
    let at = (y as usize) * (width as usize) + (x as usize);
    let k = bin_at(picture, s, at);
    let a = tile_value(
        picture,
        width,
        height,
        s,
        row.lower,
        column.lower,
        k,
        scratch,
    );
    let b = tile_value(
        picture,
        width,
        height,
        s,
        row.lower,
        column.upper,
        k,
        scratch,
    );
    let c = tile_value(
        picture,
        width,
        height,
        s,
        row.upper,
        column.lower,
        k,
        scratch,
    );
    let d = tile_value(
        picture,
        width,
        height,
        s,
        row.upper,
        column.upper,
        k,
        scratch,
    );
    pixel_place::grey_by(column, row, 0, a, b, c, d)
}

// Row y of the film by the rule.
fn paint_row(
    picture: &[u16],
    width: u32,
    height: u32,
    s: Settings,
    y: u32,
    out: &mut [u16],
    scratch: &mut [u32],
)
    requires { DirectRowAsks width height picture.now s y (length out.old) (length scratch.old) }
    ensures { BehindBins s scratch.old scratch.new × (out.new ≡ rule_row width height picture.now s y) }
{
    for x in 0..width {
        let grey = pixel(picture, width, height, s, x, y, scratch);
        out[x as usize] = grey as u16;
    }
}

// The film by the rule, row by row; the scratch is left zero.
fn paint(
    picture: &[u16],
    width: u32,
    height: u32,
    s: Settings,
    target: &mut [u16],
    scratch: &mut [u32],
)
    requires { DirectPaintAsks width height picture.now s (length target.old) (length scratch.old) }
    ensures { (target.new ≡ joined height (rule_row width height picture.now s)) × (scratch.new ≡ filled (λ k. 0) scratch.old (bins_of s)) }
{
    let wide = width as usize;
    for y in 0..height {
        let a = (y as usize) * wide;
        let e = a + wide;
        paint_row(picture, width, height, s, y, &mut target[a..e], scratch);
    }
    let each = film_settings::bins(s) as usize;
    base_lists::clear(scratch, each);
}

// The whole film rendered into the target, pixel by pixel.
pub fn direct(
    width: u32,
    height: u32,
    picture: &[u16],
    s: Settings,
    target: &mut [u16],
    scratch: &mut [u32],
) -> Result<Footer, Refusal>
    ensures { paint_leaves (said result) target.new scratch.new ≡ direct_of width height picture.now s target.old scratch.old }
{
    refusal(width, height, picture, s, scratch.len(), target.len())?;
    let footer = film_tiles::foot(width, height, s);
    if film_settings::clip_one(s.clip) {
        base_lists::copy(picture, target);
        return Ok(footer);
    }
    paint(picture, width, height, s, target, scratch);
    Ok(footer)
}
