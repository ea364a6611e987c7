// Counting and mapping for C: numbers and slices in, 0 or the refusal's number out.
#![tactic(auto)]

ghost use Rattle.std.specs.Prelude.{◌≡◌};
ghost use Rattle.film_count.specs.Counting.{count_of};
ghost use Rattle.film_map.specs.Counts.{map_of};
ghost use Rattle.c_flat.specs.Flat.{settings_from_of, axes_from};
ghost use Rattle.c_flat.specs.Films.{foot_from, cells_from, prepared_as, flat_prepared};
ghost use Rattle.c_counts.specs.Flat.{unclipped, counted_as, flat_counted};

use film_settings::Settings;
use tile_limit::{Clip, Edition};

// Counting never looks at the clip setting and its edition, so they are not asked for.
#[unsafe(no_mangle)]
pub extern "C" fn tz_count(
    width: u32,
    height: u32,
    picture: &[u16],
    across: u32,
    down: u32,
    bins: u32,
    min: u32,
    max: u32,
    counts: &mut [u32],
) -> u32
    ensures { counted_as result counts.new ≡ flat_counted (count_of width height picture.now (unclipped across down bins min max) counts.old) }
{
    let s = Settings {
        across,
        down,
        bins,
        min,
        max,
        clip: Clip::Off,
        edition: Edition::Ours,
    };
    let answer = film_count::count_tiles(width, height, picture, s, counts);
    c_flat::code(answer)
}

#[unsafe(no_mangle)]
pub extern "C" fn tz_map(
    film: u32,
    width: u32,
    height: u32,
    across: u32,
    down: u32,
    bins: u32,
    min: u32,
    max: u32,
    clip: u32,
    factor: f32,
    counts: &[u32],
    map: &mut [u16],
    scratch: &mut [u32],
    numbers: &mut [u32; 10],
    kept: &mut f32,
    limit: &mut u32,
    asked: &mut f32,
    used: &mut f64,
    column_edges: &mut [u32; 17],
    column_centres: &mut [u32; 16],
    row_edges: &mut [u32; 17],
    row_centres: &mut [u32; 16],
    list: &mut [u64],
    edition: u32,
) -> u32
    ensures { prepared_as result map.new scratch.new list.new (cells_from numbers.new kept.new (axes_from column_edges.new column_centres.new row_edges.new row_centres.new) (foot_from limit.new asked.new used.new)) ≡ flat_prepared (map_of film width height (settings_from_of across down bins min max clip factor edition) counts.now map.old scratch.old list.old) (cells_from numbers.old kept.old (axes_from column_edges.old column_centres.old row_edges.old row_centres.old) (foot_from limit.old asked.old used.old)) }
{
    let s = c_flat::settings_from(across, down, bins, min, max, clip, factor, edition);
    let prepared = film_map::map_counts(film, width, height, s, counts, map, scratch, list);
    c_flat::put_prepared(
        numbers,
        kept,
        limit,
        asked,
        used,
        column_edges,
        column_centres,
        row_edges,
        row_centres,
        prepared,
    )
}
