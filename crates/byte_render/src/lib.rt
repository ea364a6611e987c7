// Bytes of the rendered film from mappings: each row goes through a line of 16-bit entries, so that the wide row's own function renders it.
#![tactic(auto)]

ghost use Rattle.std.specs.Prelude.{◌≡◌, length};
ghost use Rattle.tile_count.specs.Tally.{greys_of};
ghost use Rattle.pixel_render.specs.Render.{row_place, row_of, render_of, rect_of};
ghost use Rattle.film_window.specs.Frame.{CopyWindowAsks};
ghost use Rattle.byte_render.specs.Bytes.{ByteRowAsks, ByteAsks, RenderFromAsks};

use film_settings::{Settings, Window};

// Renders bytes of row y in place, from column `left` on; the line and the table are room to work in.
fn byte_row(
    pixels: &mut [u8],
    left: u32,
    y: u32,
    width: u32,
    height: u32,
    s: Settings,
    map: &[u16],
    line: &mut [u16],
    table: &mut [u64],
)
    requires { ByteRowAsks width height s map.now left y pixels.old (length line.old) }
    ensures { pixels.new ≡ row_of width s map.now left (row_place height s y) pixels.old }
{
    let n = pixels.len();
    byte_narrow::widen(pixels, line);
    pixel_render::render_row(&mut line[..n], left, y, width, height, s, map, table);
    byte_narrow::narrow(&line[..n], pixels);
}

// Renders a window's bytes in place, row by row; the line and the table are room to work in.
fn render(
    pixels: &mut [u8],
    win: Window,
    width: u32,
    height: u32,
    s: Settings,
    map: &[u16],
    line: &mut [u16],
    table: &mut [u64],
)
    requires { ByteAsks width height s map.now win pixels.old (length line.old) }
    ensures { pixels.new ≡ render_of width height s map.now win pixels.old }
{
    let wide = win.width as usize;
    for j in 0..win.height {
        let a = (j as usize) * wide;
        let e = a + wide;
        byte_row(
            &mut pixels[a..e],
            win.left,
            win.top + j,
            width,
            height,
            s,
            map,
            line,
            table,
        );
    }
}

// Renders a window's bytes in place from a map buffer of bytes: owns the line, the wide mappings and the table, two entries for each of the at most 256 bins of bytes.
pub fn render_from(pixels: &mut [u8], win: Window, width: u32, height: u32, s: Settings, map: &[u8])
    requires { RenderFromAsks width height s map.now win pixels.old }
    ensures { pixels.new ≡ render_of width height s map.now win pixels.old }
{
    let mut line = [0u16; 4096];
    let mut wide = [0u16; 16384];
    let mut table = [0u64; 512];
    let entries = (s.across as usize) * (s.down as usize) * (film_settings::bins(s) as usize);
    byte_narrow::widen(&map[..entries], &mut wide);
    render(pixels, win, width, height, s, &wide, &mut line, &mut table);
}

// Copies the window's bytes to the output, row by row.
#[tactic(auto, using(film_window::proofs::Frames::line_room, film_window::proofs::Frames::place_room))]
pub fn copy_window(picture: &[u8], stride: usize, win: Window, out: &mut [u8])
    requires { CopyWindowAsks picture.now stride win out.old }
    ensures { out.new ≡ greys_of picture.now stride (rect_of win) }
{
    let wide = win.width as usize;
    for y in 0..win.height {
        let from = ((win.top as usize) + (y as usize)) * stride + (win.left as usize);
        let to = from + wide;
        let at = (y as usize) * wide;
        let end = at + wide;
        base_lists::copy(&picture[from..to], &mut out[at..end]);
    }
}
