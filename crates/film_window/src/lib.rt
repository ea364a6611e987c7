// The rows of a window in a picture: looked at for greys outside a range, and copied.
#![tactic(auto)]

ghost use Rattle.std.specs.Prelude.{◌≡◌, ◌+◌, ◌*◌, ◌<◌, length, take, drop};
ghost use Rattle.base_lists.specs.Lists.{all};
ghost use Rattle.base_range.specs.Scan.{within};
ghost use Rattle.tile_count.specs.Tally.{greys_of};
ghost use Rattle.pixel_render.specs.Render.{rect_of};
ghost use Rattle.film_window.specs.Frame.{Framed, CopyWindowAsks};

use film_settings::Window;

// Whether no grey is above Max. Looking for the greatest alone takes half the steps of looking for the least as well, so that more of what is not in the cache is on its way at once.
fn none_above(greys: &[u16], max: u32) -> bool
    ensures { result ≡ all (within 0 max) greys.now }
{
    let mut high = 0u16;
    for grey in greys {
        high = high.max(*grey);
    }
    high as u32 <= max
}

// Whether all these greys lie in Min to Max, by fewer steps where Min is 0.
pub fn greys_within(greys: &[u16], min: u32, max: u32) -> bool
    ensures { result ≡ all (within min max) greys.now }
{
    if min == 0 {
        none_above(greys, max)
    } else {
        base_range::all_within(greys, min, max)
    }
}

// Row y of the window.
fn row(picture: &[u16], stride: usize, win: Window, y: u32) -> &[u16]
    requires { Framed (length picture.now) stride win × (y < win.height) }
    ensures { result.now ≡ take win.width (drop ((win.top + y) * stride + win.left) picture.now) }
{
    let from = ((win.top as usize) + (y as usize)) * stride + (win.left as usize);
    &picture[from..from + win.width as usize]
}

// Whether all pixels of the window lie in Min to Max.
pub fn window_within(picture: &[u16], stride: usize, win: Window, min: u32, max: u32) -> bool
    requires { Framed (length picture.now) stride win }
    ensures { result ≡ all (within min max) (greys_of picture.now stride (rect_of win)) }
{
    for y in 0..win.height {
        if !greys_within(row(picture, stride, win, y), min, max) {
            return false;
        }
    }
    true
}

// Copies the window's pixels to the output, row by row.
pub fn copy_window(picture: &[u16], stride: usize, win: Window, out: &mut [u16])
    requires { CopyWindowAsks picture.now stride win out.old }
    ensures { out.new ≡ greys_of picture.now stride (rect_of win) }
{
    let wide = win.width as usize;
    for y in 0..win.height {
        let at = (y as usize) * wide;
        base_lists::copy(row(picture, stride, win, y), &mut out[at..at + wide]);
    }
}
