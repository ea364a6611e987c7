// Pixels between the same tiles, whose bins stand in their places, from the mappings of their four tiles, which lie in the map buffer.
#![tactic(auto)]

ghost use Rattle.std.specs.Prelude.{◌≡◌, ◌+◌, ◌*◌, ◌<◌, length, take, drop};
ghost use Rattle.pixel_sums.specs.Sums.{sums_moved};
ghost use Rattle.film_settings.specs.Settings.{bins_of};
ghost use Rattle.pixel_weigh.specs.Weigh.{weighed_run, Maps, WeighAsks};

use film_settings::Settings;
use pixel_place::Place;
use pixel_table::{Corners, Spot};

// The mapping of the tile in tile row j and tile column i.
fn tile_at(s: Settings, map: &[u16], j: u32, i: u32) -> &[u16]
    requires { Maps s map.now × (j < s.down) × (i < s.across) }
    ensures { result.now ≡ take (bins_of s) (drop ((j * s.across + i) * bins_of s) map.now) }
{
    let bins = film_settings::bins(s) as usize;
    let at = (j * s.across + i) as usize * bins;
    &map[at..at + bins]
}

// Renders pixels between the same tiles, whose bins stand in their places, from the mappings of the four tiles: the sum moves. Answers how many sums moved. The table is room to work in, which keeps its length.
pub fn weigh_sums(
    pixels: &mut [u16],
    s: Settings,
    map: &[u16],
    column: Place,
    row: Place,
    table: &mut [u64],
) -> usize
    requires { WeighAsks s map.now column row pixels.old }
    ensures { (pixels.new ≡ weighed_run s map.now column row pixels.old) × (length table.new ≡ length table.old) × (result ≡ sums_moved (length table.old) pixels.old) }
{
    let corners = Corners {
        upper_left: tile_at(s, map, row.lower, column.lower),
        upper_right: tile_at(s, map, row.lower, column.upper),
        lower_left: tile_at(s, map, row.upper, column.lower),
        lower_right: tile_at(s, map, row.upper, column.upper),
    };
    pixel_sums::sum_run(pixels, corners, Spot { column, row }, table)
}
