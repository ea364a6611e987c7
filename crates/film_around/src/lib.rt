// A window around each pixel: every pixel has a region of its own, whose counts move on from pixel to pixel.
#![tactic(auto)]

ghost use Rattle.std.specs.Prelude.{◌≡◌, ◌+◌, ◌-◌, ◌*◌, ◌%◌, ◌≤◌, ◌<◌, min, length, take, drop, get_or};
ghost use Rattle.base_lists.specs.Lists.{joined, filled, over};
ghost use Rattle.base_rows.specs.Refuse.{first};
ghost use Rattle.base_rows.specs.Given.{given, said};
ghost use Rattle.tile_bin.specs.Binning.{bin_of};
ghost use Rattle.film_settings.specs.Settings.{bins_of};
ghost use Rattle.tile_slide.specs.Slide.{RegionAsks, Slid};
ghost use Rattle.film_prepare.specs.Prepare.{paint_leaves};
ghost use Rattle.film_around.specs.Around.{region_rows, around_work_rows, around_rows, region_pixels, around_row, around_of, AroundBinAsks, AroundPixelAsks, AroundGreyed, RegionHeld, SpanAsks, PartAround, KeptPart, KeepAsks, front_of, SlideInAsks, FoundAsks, FoundIn, AroundStartAsks, PaintPixelsAsks, AroundRowAsks, AroundPaintAsks, BehindTwiceBins};

use base_rows::Refusal;
use film_settings::{Footer, Settings, Window};
use tile_count::Binning;

// Refusal 39, where it applies.
#[tactic(auto, unfolding(base_rows::specs::Refuse::first, crate::specs::Around::region_rows))]
fn region_refusal(side: u32) -> Result<(), Refusal>
    ensures { given result ≡ first (region_rows side) }
{
    if side % 2 == 0 || side < 3 || 63 < side {
        return Err(Refusal::RegionSide);
    }
    Ok(())
}

// The first of the refusals 12, 17 and 13 that applies.
#[tactic(auto, unfolding(base_rows::specs::Refuse::first, crate::specs::Around::around_work_rows))]
fn work_refusal(
    width: u32,
    height: u32,
    picture: &[u16],
    s: Settings,
    scratch: usize,
    target: usize,
) -> Result<(), Refusal>
    requires { (width ≤ 4096) × (height ≤ 4096) }
    ensures { given result ≡ first (around_work_rows width height picture.now s scratch target) }
{
    if scratch < 2 * (film_settings::bins(s) as usize) {
        return Err(Refusal::ScratchShort);
    }
    if target != (width as usize) * (height as usize) {
        return Err(Refusal::OutputLength);
    }
    if !base_range::all_within(picture, s.min, s.max) {
        return Err(Refusal::PixelOutside);
    }
    Ok(())
}

// The first of the refusals 1, 2, 39, 7 to 9, 31, 10, 12, 17 and 13 that applies.
fn refusal(
    width: u32,
    height: u32,
    picture: &[u16],
    side: u32,
    s: Settings,
    scratch: usize,
    target: usize,
) -> Result<(), Refusal>
    ensures { given result ≡ first (around_rows width height picture.now side s scratch target) }
{
    film_settings::size_refusal(width, height, picture.len())?;
    region_refusal(side)?;
    film_settings::grey_refusal(s)?;
    work_refusal(width, height, picture, s, scratch, target)
}

// The bin of the grey at `at`.
fn bin_at(picture: &[u16], s: Settings, at: usize, by: Binning) -> usize
    requires { AroundBinAsks picture.now s at by.bins by.factor }
    ensures { result ≡ bin_of s.min s.max by.bins (get_or picture.now at 0) }
{
    tile_bin::bin_by(picture[at] as u32, s.min, by.factor) as usize
}

// The pixels of the region around the pixel in column x and row y.
fn area(width: u32, height: u32, side: u32, x: u32, y: u32) -> u32
    requires { RegionAsks width height side x y }
    ensures { result ≡ region_pixels width height side x y }
{
    let rect = tile_slide::region(width, height, side, x, y);
    (rect.width * rect.height) as u32
}

// The least and the greatest of some greys.
#[derive(Clone, Copy)]
struct Greys {
    low: u16,
    high: u16,
}

// The bins from `low` up to `top` and with it, which is where the counts of some regions are looked for. Nothing rests on it: whether all of a region's
// pixels are in these bins is asked of its counts.
#[derive(Clone, Copy)]
struct Span {
    low: usize,
    top: usize,
}

// The least and the greatest of these and of a row's greys.
fn row_greys(row: &[u16], was: Greys) -> Greys {
    let mut low = was.low;
    let mut high = was.high;
    for grey in row {
        low = low.min(*grey);
        high = high.max(*grey);
    }
    Greys { low, high }
}

// The bin of a grey, and bin 0 for one that is none of the range.
fn bin_near(grey: u16, by: Binning) -> usize {
    let v = grey as u32;
    if v < by.min || 4095 < v {
        return 0;
    }
    tile_bin::bin_by(v, by.min, by.factor) as usize
}

// The bins of some greys.
fn span_of(greys: &[u16], by: Binning) -> Span {
    let none = Greys {
        low: 65535,
        high: 0,
    };
    let found = row_greys(greys, none);
    let low = bin_near(found.low, by);
    let top = bin_near(found.high, by);
    Span { low, top }
}

// The column 64 behind x, or the film's last.
fn last_of(width: u32, x: u32) -> u32
    requires { (x < width) × (width ≤ 4096) }
    ensures { result ≡ min (x + 64) (width - 1) }
{
    if x + 64 < width { x + 64 } else { width - 1 }
}

// The part of the film that has the regions around 64 pixels of row y from column x on, and the one behind them.
fn part_of(width: u32, height: u32, side: u32, x: u32, y: u32) -> Window
    requires { RegionAsks width height side x y }
    ensures { PartAround width height side x y result }
{
    let first = tile_slide::region(width, height, side, x, y);
    let last = tile_slide::region(width, height, side, last_of(width, x), y);
    let right = last.left + last.width;
    Window {
        left: first.left as u32,
        top: first.top as u32,
        width: (right - first.left) as u32,
        height: first.height as u32,
    }
}

// A part of the film that was copied, and the bins of its greys.
#[derive(Clone, Copy)]
struct Kept {
    win: Window,
    span: Span,
}

// A part before the first.
fn nothing_kept() -> Kept {
    let win = Window {
        left: 0,
        top: 0,
        width: 0,
        height: 0,
    };
    let span = Span { low: 0, top: 0 };
    Kept { win, span }
}

// Copies the part around 64 pixels of row y from column x on. A column of the film lies in as many lines of the processor's memory as it has
// rows, and where the film is 4096 wide these take each other's place there; a column of the part does not.
fn keep(
    picture: &[u16],
    width: u32,
    height: u32,
    side: u32,
    x: u32,
    y: u32,
    by: Binning,
    part: &mut [u16],
) -> Kept
    requires { SpanAsks (length picture.now) width height side x y × (8192 ≤ length part.old) × (x % 64 ≡ 0) }
    ensures { KeptPart width height picture.now side x y result.win part.new × (length part.new ≡ length part.old) }
{
    let win = part_of(width, height, side, x, y);
    let n = (win.height as usize) * (win.width as usize);
    film_window::copy_window(picture, width as usize, win, &mut part[..n]);
    let span = span_of(&part[..n], by);
    Kept { win, span }
}

// The same at each 64th column, and the part that was kept at those behind it.
fn keep_at(
    picture: &[u16],
    width: u32,
    height: u32,
    side: u32,
    x: u32,
    y: u32,
    by: Binning,
    was: Kept,
    part: &mut [u16],
) -> Kept
    requires { KeepAsks width height picture.now side x y was.win part.old }
    ensures { KeptPart width height picture.now side x y result.win part.new × (length part.new ≡ length part.old) }
{
    if 0 < x % 64 {
        return was;
    }
    keep(picture, width, height, side, x, y, by, part)
}

// Moves the counts of the region around the pixel in column x and row y to the right, by the pixels of the part alone.
fn slide_in(
    part: &[u16],
    win: Window,
    side: u32,
    s: Settings,
    x: u32,
    y: u32,
    by: Binning,
    scratch: &mut [u32],
)
    requires { SlideInAsks part.now win side s x y by.bins by.factor scratch.old × (by.min ≡ s.min) × (by.max ≡ s.max) }
    ensures { Slid (front_of win part.now) win.width win.height side (x - win.left) (y - win.top) s.min s.max by.bins scratch.old scratch.new }
{
    let n = (win.height as usize) * (win.width as usize);
    tile_slide::slide(
        &part[..n],
        win.width,
        win.height,
        side,
        x - win.left,
        y - win.top,
        by,
        scratch,
    );
}

// The mapped value of bin k by the counts in the front of the scratch, of which those of the span are looked at alone. It is known where they
// are all pixels, and no bin beside them fills up.
fn found_in(
    s: Settings,
    pixels: u32,
    k: usize,
    bins: u32,
    span: Span,
    scratch: &mut [u32],
) -> Option<u32>
    requires { FoundAsks s pixels k bins scratch.old }
    ensures { FoundIn s pixels k bins scratch.old scratch.new result }
{
    let half = bins as usize;
    let low = span.low;
    let top = span.top;
    if k < low || top < k || half <= top {
        return None;
    }
    let end = top + 1;
    let n = end - low;
    if tile_value::through(&scratch[low..end], n - 1) != pixels as u64 {
        return None;
    }
    // they are clipped behind the first half, and stay whole in front
    scratch.copy_within(low..end, half);
    tile_value::value_span(
        s.clip,
        pixels,
        s.min,
        s.max,
        k,
        half,
        low,
        &mut scratch[half..half + n],
        s.edition,
    )
}

// The same by all counts.
fn found_whole(s: Settings, pixels: u32, k: usize, bins: u32, scratch: &mut [u32]) -> u32
    requires { FoundAsks s pixels k bins scratch.old }
    ensures { FoundIn s pixels k bins scratch.old scratch.new (Some result) }
{
    let each = bins as usize;
    let end = each + each;
    scratch.copy_within(..each, each);
    tile_value::value(
        s.clip,
        pixels,
        s.min,
        s.max,
        k,
        &mut scratch[each..end],
        s.edition,
    )
}

// The grey of the pixel in column x and row y. Its region's counts stand in the front of the scratch, and stay there.
fn grey(
    picture: &[u16],
    width: u32,
    height: u32,
    side: u32,
    s: Settings,
    x: u32,
    y: u32,
    by: Binning,
    span: Span,
    scratch: &mut [u32],
) -> u32
    requires { AroundPixelAsks width height picture.now side s x y by.bins by.factor scratch.old }
    ensures { RegionHeld width height picture.now side s x y by.bins scratch.old scratch.new × AroundGreyed width height picture.now side s x y result }
{
    let at = (y as usize) * (width as usize) + (x as usize);
    let k = bin_at(picture, s, at, by);
    let pixels = area(width, height, side, x, y);
    match found_in(s, pixels, k, by.bins, span, scratch) {
        Some(value) => value,
        None => found_whole(s, pixels, k, by.bins, scratch),
    }
}

// The same, and the counts moved on to the region around the pixel to the right.
fn pixel(
    picture: &[u16],
    width: u32,
    height: u32,
    side: u32,
    s: Settings,
    x: u32,
    y: u32,
    by: Binning,
    kept: Kept,
    part: &[u16],
    scratch: &mut [u32],
) -> u32
    requires { AroundPixelAsks width height picture.now side s x y by.bins by.factor scratch.old × KeptPart width height picture.now side x y kept.win part.now × (by.min ≡ s.min) × (by.max ≡ s.max) }
    ensures { RegionHeld width height picture.now side s (x + 1) y by.bins scratch.old scratch.new × AroundGreyed width height picture.now side s x y result }
{
    let span = kept.span;
    let shown = grey(picture, width, height, side, s, x, y, by, span, scratch);
    slide_in(part, kept.win, side, s, x, y, by, scratch);
    shown
}

// Counts the region around the first pixel of row y.
fn start(
    picture: &[u16],
    width: u32,
    height: u32,
    side: u32,
    s: Settings,
    y: u32,
    bins: u32,
    scratch: &mut [u32],
)
    requires { AroundStartAsks width height picture.now side s y bins (length scratch.old) }
    ensures { RegionHeld width height picture.now side s 0 y bins scratch.old scratch.new }
{
    let rect = tile_slide::region(width, height, side, 0, y);
    tile_count::count(picture, width as usize, rect, s.min, s.max, bins, scratch);
}

// The pixels of row y, each by its own region; the counts of the first one's are there.
fn paint_pixels(
    picture: &[u16],
    width: u32,
    height: u32,
    side: u32,
    s: Settings,
    y: u32,
    by: Binning,
    part: &mut [u16],
    out: &mut [u16],
    scratch: &mut [u32],
)
    requires { PaintPixelsAsks width height picture.now side s y by.bins by.factor (length part.old) (length out.old) scratch.old × (by.min ≡ s.min) × (by.max ≡ s.max) }
    ensures { BehindTwiceBins s scratch.old scratch.new × (out.new ≡ around_row width height picture.now side s y) }
{
    let mut kept = nothing_kept();
    for x in 0..width {
        kept = keep_at(picture, width, height, side, x, y, by, kept, part);
        let shown = pixel(
            picture, width, height, side, s, x, y, by, kept, part, scratch,
        );
        out[x as usize] = shown as u16;
    }
}

// Row y of the film, each pixel by its own region; owns the part, at most 127 columns of 64 rows.
fn paint_row(
    picture: &[u16],
    width: u32,
    height: u32,
    side: u32,
    s: Settings,
    y: u32,
    out: &mut [u16],
    scratch: &mut [u32],
)
    requires { AroundRowAsks width height picture.now side s y (length out.old) (length scratch.old) }
    ensures { BehindTwiceBins s scratch.old scratch.new × (out.new ≡ around_row width height picture.now side s y) }
{
    let bins = film_settings::bins(s);
    let by = Binning {
        min: s.min,
        max: s.max,
        bins,
        factor: tile_bin::bin_factor(s.min, s.max, bins),
    };
    start(picture, width, height, side, s, y, bins, scratch);
    let mut part = [0u16; 8192];
    paint_pixels(
        picture, width, height, side, s, y, by, &mut part, out, scratch,
    );
}

// The film, row by row; the scratch is left zero.
fn paint(
    picture: &[u16],
    width: u32,
    height: u32,
    side: u32,
    s: Settings,
    target: &mut [u16],
    scratch: &mut [u32],
)
    requires { AroundPaintAsks width height picture.now side s (length target.old) (length scratch.old) }
    ensures { (target.new ≡ joined height (around_row width height picture.now side s)) × (scratch.new ≡ filled (λ k. 0) scratch.old (2 * bins_of s)) }
{
    let wide = width as usize;
    for y in 0..height {
        let a = (y as usize) * wide;
        let e = a + wide;
        paint_row(
            picture,
            width,
            height,
            side,
            s,
            y,
            &mut target[a..e],
            scratch,
        );
    }
    let each = film_settings::bins(s) as usize;
    base_lists::clear(scratch, 2 * each);
}

// The whole film rendered into the target, each pixel by the region around it.
pub fn around(
    width: u32,
    height: u32,
    picture: &[u16],
    side: u32,
    s: Settings,
    target: &mut [u16],
    scratch: &mut [u32],
) -> Result<Footer, Refusal>
    ensures { paint_leaves (said result) target.new scratch.new ≡ around_of width height picture.now side s target.old scratch.old }
{
    refusal(width, height, picture, side, s, scratch.len(), target.len())?;
    let pixels = area(width, height, side, 0, 0);
    let footer = film_tiles::footer(s.clip, pixels, film_settings::bins(s));
    if film_settings::clip_one(s.clip) {
        base_lists::copy(picture, target);
        return Ok(footer);
    }
    paint(picture, width, height, side, s, target, scratch);
    Ok(footer)
}
