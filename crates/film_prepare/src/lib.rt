// The calls prepare and enhance: the tile mappings of a film, and the whole film rendered in place.
#![tactic(auto)]

ghost use Rattle.std.specs.Prelude.{◌≡◌, ◌≤◌};
ghost use Rattle.base_rows.specs.Refuse.{first};
ghost use Rattle.base_rows.specs.Given.{given, said};
ghost use Rattle.film_prepare.specs.Prepare.{listed_rows, prepare_rows, prepare_of, enhance_of, prepared_says, prepare_leaves, enhance_leaves};

use base_rows::Refusal;
use film_settings::{Footer, MapRecord, Settings, Window};

// What prepare hands back: the record of what the mappings were made for, and the footer.
#[derive(Clone, Copy)]
pub struct Prepared {
    pub kept: MapRecord,
    pub footer: Footer,
}

// The first of the refusals 12, 32 and 13 that applies.
#[tactic(auto, unfolding(base_rows::specs::Refuse::first, crate::specs::Prepare::listed_rows))]
fn work_refusal(picture: &[u16], s: Settings, scratch: usize, list: usize) -> Result<(), Refusal>
    requires { (s.across ≤ 16) × (s.down ≤ 16) }
    ensures { given result ≡ first (listed_rows picture.now s scratch list) }
{
    if scratch < (film_settings::bins(s) as usize) {
        return Err(Refusal::ScratchShort);
    }
    if list < (2 * (s.across * s.down) as usize) {
        return Err(Refusal::ListShort);
    }
    if !base_range::all_within(picture, s.min, s.max) {
        return Err(Refusal::PixelOutside);
    }
    Ok(())
}

// The first of the refusals 1 to 13, 31 and 32 that applies.
fn refusal(
    width: u32,
    height: u32,
    picture: &[u16],
    s: Settings,
    room: usize,
    scratch: usize,
    list: usize,
) -> Result<(), Refusal>
    ensures { given result ≡ first (prepare_rows width height picture.now s room scratch list) }
{
    film_settings::shared(width, height, picture.len(), s, room)?;
    work_refusal(picture, s, scratch, list)
}

// The mappings of a film in the map buffer, and what clipping each tile took in the list, with the record of what they were made for and the footer.
pub fn prepare(
    film: u32,
    width: u32,
    height: u32,
    picture: &[u16],
    s: Settings,
    map: &mut [u16],
    scratch: &mut [u32],
    list: &mut [u64],
) -> Result<Prepared, Refusal>
    ensures { prepare_leaves (prepared_says result) map.new scratch.new list.new ≡ prepare_of film width height picture.now s map.old scratch.old list.old }
{
    refusal(
        width,
        height,
        picture,
        s,
        map.len(),
        scratch.len(),
        list.len(),
    )?;
    let kept = film_settings::made_for(film, width, height, s);
    let footer = film_tiles::foot(width, height, s);
    if film_settings::clip_one(s.clip) {
        return Ok(Prepared { kept, footer });
    }
    film_tiles::map_tiles(picture, width, height, s, map, scratch, list);
    Ok(Prepared { kept, footer })
}

// The whole film rendered in place, with the mappings in the map buffer.
pub fn enhance(
    width: u32,
    height: u32,
    picture: &mut [u16],
    s: Settings,
    map: &mut [u16],
    scratch: &mut [u32],
) -> Result<Footer, Refusal>
    ensures { enhance_leaves (said result) picture.new map.new scratch.new ≡ enhance_of width height picture.old s map.old scratch.old }
{
    // no list is lent, and none is too short: this one has two entries for each of 16 x 16 tiles
    let mut list = [0u64; 512];
    refusal(
        width,
        height,
        &picture[..],
        s,
        map.len(),
        scratch.len(),
        list.len(),
    )?;
    let footer = film_tiles::foot(width, height, s);
    let unchanged = film_settings::clip_one(s.clip);
    if unchanged {
        return Ok(footer);
    }
    film_tiles::map_tiles(&picture[..], width, height, s, map, scratch, &mut list);
    let whole = Window {
        left: 0,
        top: 0,
        width,
        height,
    };
    pixel_render::render(picture, whole, width, height, s, map);
    Ok(footer)
}
