// A film's tiles: where they lie, their mappings laid down in the map buffer, and the film's footer.
#![tactic(auto)]

ghost use Rattle.std.specs.Prelude.{◌≡◌, ◌<◌, ◌*◌, length};
ghost use Rattle.base_lists.specs.Lists.{over};
ghost use Rattle.film_settings.specs.Settings.{Tiled};
ghost use Rattle.film_tiles.specs.Tiles.{footer_of, foot_of, tile_rect_of, pixels_in, spent_pair, TileRectAsks, FilmFooterAsks, FooterAsks, SpentAsks, MapTileAsks, MapTilesAsks, TileDone, TilesDone};

use film_settings::{Footer, Settings};
use tile_clip::Spent;
use tile_count::Rect;
use tile_limit::Clip;

// The footer of a film whose first tile has `pixels` pixels.
pub fn footer(clip: Clip, pixels: u32, bins: u32) -> Footer
    requires { FooterAsks clip pixels bins }
    ensures { result ≡ footer_of clip pixels bins }
{
    match clip {
        Clip::Off => Footer {
            limit: 0,
            asked: 0.0,
            used: 0.0,
        },
        Clip::Factor(f) => {
            if film_settings::clip_one(clip) {
                return Footer {
                    limit: 0,
                    asked: 1.0,
                    used: 1.0,
                };
            }
            let limit = tile_limit::limit(f, pixels, bins);
            let used = tile_limit::used(limit, bins, pixels);
            Footer {
                limit,
                asked: f,
                used,
            }
        }
    }
}

// The rectangle of tile k.
pub fn tile_rect(width: u32, height: u32, across: u32, down: u32, k: usize) -> Rect
    requires { TileRectAsks width height across down k }
    ensures { result ≡ tile_rect_of width height across down k }
{
    let columns = across as usize;
    let i = (k % columns) as u32;
    let j = (k / columns) as u32;
    let left = pixel_grid::edge(width, across, i) as usize;
    let top = pixel_grid::edge(height, down, j) as usize;
    let wide = pixel_grid::size(width, across, i) as usize;
    let high = pixel_grid::size(height, down, j) as usize;
    Rect {
        left,
        top,
        width: wide,
        height: high,
    }
}

// The pixels of tile k.
pub fn tile_pixels(width: u32, height: u32, s: Settings, k: usize) -> u32
    requires { Tiled width height s × (k < s.across * s.down) }
    ensures { result ≡ pixels_in width height s k }
{
    let tile = tile_rect(width, height, s.across, s.down, k);
    (tile.width * tile.height) as u32
}

// The footer of a film: that of its first tile.
pub fn foot(width: u32, height: u32, s: Settings) -> Footer
    requires { FilmFooterAsks width height s }
    ensures { result ≡ foot_of width height s }
{
    let pixels = tile_pixels(width, height, s, 0);
    footer(s.clip, pixels, film_settings::bins(s))
}

// Lays the two entries of tile k down in the list: its excess, and the looks of its leftover walk.
pub fn put_spent(list: &mut [u64], k: usize, spent: Spent)
    requires { SpentAsks k (length list.old) }
    ensures { list.new ≡ over list.old (k * 2) (spent_pair spent) }
{
    let at = k * 2;
    list[at] = spent.excess;
    list[at + 1] = spent.looks;
}

// Makes the mapping of tile k, in its place in the map buffer. The answer is what clipping took.
fn map_tile(
    picture: &[u16],
    width: u32,
    height: u32,
    s: Settings,
    k: usize,
    map: &mut [u16],
    scratch: &mut [u32],
) -> Spent
    requires { MapTileAsks width height picture.now s k (length map.old) (length scratch.old) }
    ensures { TileDone width height picture.now s k map.old map.new scratch.old scratch.new result }
{
    let rect = tile_rect(width, height, s.across, s.down, k);
    let bins = film_settings::bins(s);
    let each = bins as usize;
    let a = k * each;
    let e = a + each;
    tile_map::mapping(
        picture,
        width as usize,
        rect,
        s.min,
        s.max,
        bins,
        s.clip,
        scratch,
        &mut map[a..e],
        s.edition,
    )
}

// Makes the mappings of all tiles, and lays down what clipping each took; the scratch is left zero.
pub fn map_tiles(
    picture: &[u16],
    width: u32,
    height: u32,
    s: Settings,
    map: &mut [u16],
    scratch: &mut [u32],
    list: &mut [u64],
)
    requires { MapTilesAsks width height picture.now s (length map.old) (length scratch.old) (length list.old) }
    ensures { TilesDone width height picture.now s map.old map.new scratch.old scratch.new list.old list.new }
{
    let tiles = (s.across * s.down) as usize;
    for k in 0..tiles {
        let spent = map_tile(picture, width, height, s, k, map, scratch);
        put_spent(list, k, spent);
    }
    let each = film_settings::bins(s) as usize;
    base_lists::clear(scratch, each);
}
