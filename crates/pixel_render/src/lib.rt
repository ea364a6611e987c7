// Pixels of the rendered film from mappings: a row in place, and a window in place.
#![tactic(auto)]

ghost use Rattle.std.specs.Prelude.{◌≡◌, ◌+◌, ◌≤◌, ◌<◌, length};
ghost use Rattle.pixel_grid.specs.Grid.{Fits};
ghost use Rattle.pixel_bins.specs.Bins.{binned_of};
ghost use Rattle.pixel_render.specs.Render.{row_place, row_of, weighed_row, moved_row, render_of, moved_window, Mapped, Shown, RenderRowAsks, Sectioned, SumRowAsks};

use film_settings::{Settings, Window};
use pixel_place::Place;

// Pixels of a row that lie between the same tiles: the first one's place, and where they end.
#[derive(Clone, Copy)]
struct Section {
    column: Place,
    end: usize,
}

// The section that starts at pixel `at` of a row of `len` pixels from column `left` on.
fn section_from(width: u32, across: u32, left: u32, at: usize, len: usize) -> Section
    requires { Fits width across × (left + len ≤ width) × (at < len) }
    ensures { Sectioned width across left at len result }
{
    let x = left + (at as u32);
    let column = pixel_place::locate(width, across, x);
    let run = pixel_place::run(column, width, across, x) as usize;
    let end = at + run.min(len - at);
    Section { column, end }
}

// Renders a row's pixels, whose bins stand in their places, from column `left` on, and answers how many sums moved; the table is room to work in, which keeps its length.
fn sum_row(
    pixels: &mut [u16],
    left: u32,
    width: u32,
    s: Settings,
    map: &[u16],
    row: Place,
    table: &mut [u64],
) -> usize
    requires { SumRowAsks width s map.now left row pixels.old }
    ensures { (pixels.new ≡ weighed_row width s map.now left row pixels.old) × (length table.new ≡ length table.old) × (result ≡ moved_row width s left (length table.old) pixels.old) }
{
    let len = pixels.len();
    let mut at = 0;
    let mut moved = 0;
    while at < len {
        let part = section_from(width, s.across, left, at, len);
        let ahead = &mut pixels[at..part.end];
        moved += pixel_weigh::weigh_sums(ahead, s, map, part.column, row, table);
        at = part.end;
    }
    moved
}

// Renders pixels of row y in place, from column `left` on, and answers how many sums moved; the table is room to work in, which keeps its length.
pub fn render_row(
    pixels: &mut [u16],
    left: u32,
    y: u32,
    width: u32,
    height: u32,
    s: Settings,
    map: &[u16],
    table: &mut [u64],
) -> usize
    requires { Fits height s.down × (y < height) × RenderRowAsks width s map.now left (row_place height s y) pixels.old }
    ensures { (pixels.new ≡ row_of width s map.now left (row_place height s y) pixels.old) × (length table.new ≡ length table.old) × (result ≡ moved_row width s left (length table.old) (binned_of s pixels.old)) }
{
    let row = pixel_place::locate(height, s.down, y);
    pixel_bins::bins_row(pixels, s);
    sum_row(pixels, left, width, s, map, row, table)
}

// Renders a window's pixels in place, row by row, and answers how many sums moved; the table is room to work in.
fn render_rows(
    pixels: &mut [u16],
    win: Window,
    width: u32,
    height: u32,
    s: Settings,
    map: &[u16],
    table: &mut [u64],
) -> usize
    requires { Mapped width height s map.now × Shown width height s win pixels.old }
    ensures { (pixels.new ≡ render_of width height s map.now win pixels.old) × (result ≡ moved_window width s win (length table.old) pixels.old) }
{
    let wide = win.width as usize;
    let mut moved = 0;
    for j in 0..win.height {
        let from = (j as usize) * wide;
        let strip = &mut pixels[from..from + wide];
        moved += render_row(strip, win.left, win.top + j, width, height, s, map, table);
    }
    moved
}

// Renders a window's pixels in place, and answers how many sums moved. Owns the table: two entries for each bin.
pub fn render(
    pixels: &mut [u16],
    win: Window,
    width: u32,
    height: u32,
    s: Settings,
    map: &[u16],
) -> usize
    requires { Mapped width height s map.now × Shown width height s win pixels.old }
    ensures { (pixels.new ≡ render_of width height s map.now win pixels.old) × (result ≡ moved_window width s win 8192 pixels.old) }
{
    let mut table = [0u64; 8192];
    render_rows(pixels, win, width, height, s, map, &mut table)
}
