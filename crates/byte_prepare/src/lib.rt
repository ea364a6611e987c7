// The calls prepare and enhance on bytes: the film, its mappings and its rendering as bytes, by the wide calls' own rules.
#![tactic(auto)]

ghost use Rattle.std.specs.Prelude.{true, ◌≡◌, length};
ghost use Rattle.base_lists.specs.Lists.{all};
ghost use Rattle.base_rows.specs.Refuse.{first};
ghost use Rattle.base_rows.specs.Given.{given, said};
ghost use Rattle.film_tiles.specs.Tiles.{TileDone, TilesDone};
ghost use Rattle.film_prepare.specs.Prepare.{prepared_says, prepare_leaves, enhance_leaves};
ghost use Rattle.byte_narrow.specs.Narrow.{is_byte};
ghost use Rattle.byte_prepare.specs.Bytes.{byte_prepare_rows, byte_prepare_of, byte_enhance_of, ByteMapTilesAsks, ByteMapTileAsks};

use base_rows::Refusal;
use film_prepare::Prepared;
use film_settings::{Footer, Settings, Window};
use tile_clip::Spent;

// The first refusal that applies. A byte lies in 0 to 255, so 13 is never given and not looked for; that the picture's entries are bytes is told.
fn refusal(
    width: u32,
    height: u32,
    picture: &[u8],
    s: Settings,
    room: usize,
    scratch: usize,
    list: usize,
) -> Result<(), Refusal>
    ensures { (given result ≡ first (byte_prepare_rows width height picture.now s room scratch list)) × (all is_byte picture.now ≡ true) }
{
    byte_profile::shared(width, height, picture.len(), s, room)?;
    if scratch < (film_settings::bins(s) as usize) {
        return Err(Refusal::ScratchShort);
    }
    if list < (2 * (s.across * s.down) as usize) {
        return Err(Refusal::ListShort);
    }
    Ok(())
}

// Makes the mapping of tile k, in its place in the map buffer. The answer is what clipping took.
fn map_tile(
    picture: &[u8],
    width: u32,
    height: u32,
    s: Settings,
    k: usize,
    map: &mut [u8],
    scratch: &mut [u32],
) -> Spent
    requires { ByteMapTileAsks width height picture.now s k (length map.old) (length scratch.old) }
    ensures { TileDone width height picture.now s k map.old map.new scratch.old scratch.new result }
{
    let rect = film_tiles::tile_rect(width, height, s.across, s.down, k);
    let bins = film_settings::bins(s);
    let each = bins as usize;
    let a = k * each;
    let e = a + each;
    byte_tile::mapping(
        picture,
        width as usize,
        rect,
        s.min,
        s.max,
        bins,
        s.clip,
        scratch,
        &mut map[a..e],
        s.edition,
    )
}

// Makes the mappings of all tiles, and lays down what clipping each took; the scratch is left zero.
fn map_tiles(
    picture: &[u8],
    width: u32,
    height: u32,
    s: Settings,
    map: &mut [u8],
    scratch: &mut [u32],
    list: &mut [u64],
)
    requires { ByteMapTilesAsks width height picture.now s (length map.old) (length scratch.old) (length list.old) }
    ensures { TilesDone width height picture.now s map.old map.new scratch.old scratch.new list.old list.new }
{
    let tiles = (s.across * s.down) as usize;
    for k in 0..tiles {
        let spent = map_tile(picture, width, height, s, k, map, scratch);
        film_tiles::put_spent(list, k, spent);
    }
    let each = film_settings::bins(s) as usize;
    base_lists::clear(scratch, each);
}

// The mappings of a film of bytes in the map buffer, with the record of what they were made for and the footer. What a byte slice holds is told, since no refusal is for it.
pub fn prepare_bytes(
    film: u32,
    width: u32,
    height: u32,
    picture: &[u8],
    s: Settings,
    map: &mut [u8],
    scratch: &mut [u32],
    list: &mut [u64],
) -> Result<Prepared, Refusal>
    ensures { (prepare_leaves (prepared_says result) map.new scratch.new list.new ≡ byte_prepare_of film width height picture.now s map.old scratch.old list.old) × (all is_byte picture.now ≡ true) }
{
    refusal(
        width,
        height,
        picture,
        s,
        map.len(),
        scratch.len(),
        list.len(),
    )?;
    let kept = film_settings::made_for(film, width, height, s);
    let footer = film_tiles::foot(width, height, s);
    if film_settings::clip_one(s.clip) {
        return Ok(Prepared { kept, footer });
    }
    map_tiles(picture, width, height, s, map, scratch, list);
    Ok(Prepared { kept, footer })
}

// The whole film of bytes rendered in place, with the mappings in the map buffer. What a byte slice holds is told.
pub fn enhance_bytes(
    width: u32,
    height: u32,
    picture: &mut [u8],
    s: Settings,
    map: &mut [u8],
    scratch: &mut [u32],
) -> Result<Footer, Refusal>
    ensures { (enhance_leaves (said result) picture.new map.new scratch.new ≡ byte_enhance_of width height picture.old s map.old scratch.old) × (all is_byte picture.old ≡ true) }
{
    // no list is lent, and none is too short: this one has two entries for each of 8 x 8 tiles
    let mut list = [0u64; 128];
    refusal(
        width,
        height,
        &picture[..],
        s,
        map.len(),
        scratch.len(),
        list.len(),
    )?;
    let footer = film_tiles::foot(width, height, s);
    let unchanged = film_settings::clip_one(s.clip);
    if unchanged {
        return Ok(footer);
    }
    map_tiles(&picture[..], width, height, s, map, scratch, &mut list);
    let whole = Window {
        left: 0,
        top: 0,
        width,
        height,
    };
    byte_render::render_from(picture, whole, width, height, s, map);
    Ok(footer)
}
