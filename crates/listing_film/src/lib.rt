// The listing of a film, from its pixels.
#![tactic(auto)]

ghost use Rattle.std.specs.Prelude.{◌≡◌, ◌*◌, ◌≤◌, length};
ghost use Rattle.base_rows.specs.Refuse.{first, unless};
ghost use Rattle.film_prepare.specs.Prepare.{prepare_rows};
ghost use Rattle.listing_line.specs.Lines.{refused_text};
ghost use Rattle.listing_line.specs.Asks.{Told};
ghost use Rattle.listing_film.specs.FilmText.{listing_settings, film_text};
ghost use Rattle.listing_film.specs.Asks.{kept_text, LinesAsk};

use film_settings::Settings;
use tile_limit::{Clip, Edition};

// The listing's settings: grid 2 by 2, 4 bins, range 0 to maxval, factor 2.
fn settings_for(maxval: u32) -> Settings
    ensures { result ≡ listing_settings maxval }
{
    Settings {
        across: 2,
        down: 2,
        bins: 4,
        min: 0,
        max: maxval,
        clip: Clip::Factor(2.0),
        edition: Edition::Ours,
    }
}

// The listing from what prepare left: the footer's limit, the mappings, and the excess and the looks of each tile.
fn film_lines(
    width: u32,
    height: u32,
    maxval: u32,
    limit: u32,
    map: &[u16],
    list: &[u64],
    out: &mut [u8],
) -> usize
    requires { LinesAsk width height maxval limit map.now list.now (length out.old) }
    ensures { Told out.old (kept_text width height maxval limit map.now list.now) out.new result }
{
    let mut at = listing_line::first_line(out, width, height, maxval, limit);
    for k in 0..4 {
        let a = k * 2;
        let excess = list[a] as u32;
        let looks = list[a + 1] as u32;
        at = listing_line::tile_line(out, at, k, excess, looks, map);
    }
    at
}

// The listing of a film, or prepare's refusal of it.
pub fn list_film(film: &[u16], width: u32, height: u32, maxval: u32, out: &mut [u8]) -> usize
    requires { (width * height ≤ 8192) × (512 ≤ length out.old) }
    ensures { Told out.old (unless (first (prepare_rows width height film.now (listing_settings maxval) 16 4 8)) refused_text (film_text width height maxval film.now)) out.new result }
{
    let mut map = [0u16; 16];
    let mut scratch = [0u32; 4];
    let mut list = [0u64; 8];
    let settings = settings_for(maxval);
    match film_prepare::prepare(
        0,
        width,
        height,
        film,
        settings,
        &mut map,
        &mut scratch,
        &mut list,
    ) {
        Ok(made) => film_lines(width, height, maxval, made.footer.limit, &map, &list, out),
        Err(r) => listing_line::refused_line(out, r.number()),
    }
}
