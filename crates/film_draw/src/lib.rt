// The call draw: a window of the rendered film from kept mappings.
#![tactic(auto)]

ghost use Rattle.std.specs.Prelude.{◌≡◌, length};
ghost use Rattle.base_rows.specs.Refuse.{first};
ghost use Rattle.base_rows.specs.Given.{given, said};
ghost use Rattle.film_draw.specs.Draw.{pixel_rows, draw_rows, drawn_pixels, draw_of, draw_leaves, LookAsks, WindowReady};

use base_rows::Refusal;
use film_settings::{MapRecord, Settings, Window};

// The first of the refusals 13 and 18 that applies. At factor 1.0 the mappings are not looked at.
#[tactic(auto, unfolding(base_rows::specs::Refuse::first, crate::specs::Draw::pixel_rows))]
fn pixel_refusal(
    width: u32,
    picture: &[u16],
    s: Settings,
    win: Window,
    map: &[u16],
) -> Result<(), Refusal>
    requires { LookAsks (length picture.now) width s win (length map.now) }
    ensures { given result ≡ first (pixel_rows width picture.now s win map.now) }
{
    if !film_window::window_within(picture, width as usize, win, s.min, s.max) {
        return Err(Refusal::PixelOutside);
    }
    if film_settings::clip_one(s.clip) {
        return Ok(());
    }
    let entries = (s.across as usize) * (s.down as usize) * (film_settings::bins(s) as usize);
    if !film_window::greys_within(&map[..entries], s.min, s.max) {
        return Err(Refusal::MappingOutside);
    }
    Ok(())
}

// The first refusal of draw that applies; `room` is the output's length.
fn refusal(
    film: u32,
    width: u32,
    height: u32,
    picture: &[u16],
    s: Settings,
    record: MapRecord,
    win: Window,
    map: &[u16],
    room: usize,
) -> Result<(), Refusal>
    ensures { given result ≡ first (draw_rows film width height picture.now s «record» win map.now room) }
{
    film_settings::shared(width, height, picture.len(), s, map.len())?;
    film_record::record_refusal(film, width, height, s, record)?;
    film_record::window_refusal(width, height, win, room)?;
    pixel_refusal(width, picture, s, win, map)
}

// The window's pixels in the output: as they are at factor 1.0, else rendered where they were copied to.
fn work(
    width: u32,
    height: u32,
    picture: &[u16],
    s: Settings,
    win: Window,
    map: &[u16],
    out: &mut [u16],
)
    requires { WindowReady width height picture.now s win map.now (length out.old) }
    ensures { out.new ≡ drawn_pixels width height picture.now s win map.now }
{
    film_window::copy_window(picture, width as usize, win, out);
    if film_settings::clip_one(s.clip) {
        return;
    }
    pixel_render::render(out, win, width, height, s, map);
}

// Draw: the window's rendered pixels, row by row, in the output, from the film's mappings as lent. A refusal leaves the output as it was.
pub fn draw(
    film: u32,
    width: u32,
    height: u32,
    picture: &[u16],
    s: Settings,
    record: MapRecord,
    win: Window,
    map: &[u16],
    out: &mut [u16],
) -> Result<(), Refusal>
    ensures { draw_leaves (said result) out.new ≡ draw_of film width height picture.now s «record» win map.now out.old }
{
    refusal(film, width, height, picture, s, record, win, map, out.len())?;
    work(width, height, picture, s, win, map, out);
    Ok(())
}
