// The call draw on bytes: a window of a film of bytes, by the wide call's own rules.
#![tactic(auto)]

ghost use Rattle.std.specs.Prelude.{true, ◌≡◌, length};
ghost use Rattle.base_lists.specs.Lists.{all};
ghost use Rattle.base_rows.specs.Refuse.{first};
ghost use Rattle.base_rows.specs.Given.{given, said};
ghost use Rattle.film_draw.specs.Draw.{drawn_pixels, draw_leaves};
ghost use Rattle.byte_narrow.specs.Narrow.{is_byte};
ghost use Rattle.byte_draw.specs.Bytes.{byte_draw_rows, byte_draw_of, ByteWindowReady};

use base_rows::Refusal;
use film_settings::{MapRecord, Settings, Window};

// The first refusal that applies; `room` is the output's length. A byte lies in 0 to 255, so 13 and 18 are never given and not looked for; that the entries of picture and map
// buffer are bytes is told.
fn refusal(
    film: u32,
    width: u32,
    height: u32,
    picture: &[u8],
    s: Settings,
    record: MapRecord,
    win: Window,
    map: &[u8],
    room: usize,
) -> Result<(), Refusal>
    ensures { (given result ≡ first (byte_draw_rows film width height picture.now s «record» win map.now room)) × (all is_byte picture.now ≡ true) × (all is_byte map.now ≡ true) }
{
    byte_profile::shared(width, height, picture.len(), s, map.len())?;
    film_record::record_refusal(film, width, height, s, record)?;
    film_record::window_refusal(width, height, win, room)
}

// The window's bytes in the output: as they are at factor 1.0, else rendered.
fn work(
    width: u32,
    height: u32,
    picture: &[u8],
    s: Settings,
    win: Window,
    map: &[u8],
    out: &mut [u8],
)
    requires { ByteWindowReady width height picture.now s win map.now (length out.old) }
    ensures { out.new ≡ drawn_pixels width height picture.now s win map.now }
{
    byte_render::copy_window(picture, width as usize, win, out);
    if film_settings::clip_one(s.clip) {
        return;
    }
    byte_render::render_from(out, win, width, height, s, map);
}

// A window of a film of bytes in the output, from the mappings as lent. What byte slices hold is told, since no refusal is for it.
pub fn draw_bytes(
    film: u32,
    width: u32,
    height: u32,
    picture: &[u8],
    s: Settings,
    record: MapRecord,
    win: Window,
    map: &[u8],
    out: &mut [u8],
) -> Result<(), Refusal>
    ensures { (draw_leaves (said result) out.new ≡ byte_draw_of film width height picture.now s «record» win map.now out.old) × (all is_byte picture.now ≡ true) × (all is_byte map.now ≡ true) }
{
    refusal(film, width, height, picture, s, record, win, map, out.len())?;
    work(width, height, picture, s, win, map, out);
    Ok(())
}
