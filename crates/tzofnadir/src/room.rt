// The room's calls: those of `c_films`, under the names that C sees.
ghost use Rattle.std.specs.Prelude.{◌≡◌};
ghost use Rattle.film_sets.specs.Sets.{empty_room};
ghost use Rattle.film_room.specs.Room.{store_of, show_of, drop_of};
ghost use Rattle.c_flat.specs.Flat.{settings_from_of, window_from};
ghost use Rattle.c_flat.specs.Films.{foot_from, drawn_as, flat_drawn};
ghost use Rattle.c_room.specs.Flat.{room_cells_from, room_from_of, cells_of, stored_as, flat_stored, dropped_as, flat_dropped};

// An empty room: count 0, and zeros in all cells.
#[unsafe(no_mangle)]
pub extern "C" fn tz_room_empty(count: &mut u32, numbers: &mut [u32; 80], factors: &mut [f32; 8])
    ensures { room_cells_from count.new numbers.new factors.new ≡ cells_of empty_room }
{
    c_films::room::tz_room_empty(count, numbers, factors);
}

#[unsafe(no_mangle)]
pub extern "C" fn tz_room_store(
    film: u32,
    width: u32,
    height: u32,
    picture: &[u16],
    across: u32,
    down: u32,
    bins: u32,
    min: u32,
    max: u32,
    clip: u32,
    factor: f32,
    map: &mut [u16],
    scratch: &mut [u32],
    limit: &mut u32,
    asked: &mut f32,
    used: &mut f64,
    list: &mut [u64],
    edition: u32,
    count: &mut u32,
    numbers: &mut [u32; 80],
    factors: &mut [f32; 8],
) -> u32
    ensures { stored_as result map.new scratch.new list.new (foot_from limit.new asked.new used.new) (room_cells_from count.new numbers.new factors.new) ≡ flat_stored (store_of (room_from_of (room_cells_from count.old numbers.old factors.old)) film width height picture.now (settings_from_of across down bins min max clip factor edition) map.old scratch.old list.old) (foot_from limit.old asked.old used.old) (room_cells_from count.old numbers.old factors.old) }
{
    c_films::room::tz_room_store(
        film, width, height, picture, across, down, bins, min, max, clip, factor, map, scratch,
        limit, asked, used, list, edition, count, numbers, factors,
    )
}

#[unsafe(no_mangle)]
pub extern "C" fn tz_room_draw(
    film: u32,
    width: u32,
    height: u32,
    picture: &[u16],
    across: u32,
    down: u32,
    bins: u32,
    min: u32,
    max: u32,
    clip: u32,
    factor: f32,
    left: u32,
    top: u32,
    window_width: u32,
    window_height: u32,
    map: &[u16],
    out: &mut [u16],
    edition: u32,
    count: u32,
    numbers: &[u32; 80],
    factors: &[f32; 8],
) -> u32
    ensures { drawn_as result out.new ≡ flat_drawn (show_of (room_from_of (room_cells_from count numbers.now factors.now)) film width height picture.now (settings_from_of across down bins min max clip factor edition) (window_from left top window_width window_height) map.now out.old) }
{
    c_films::room::tz_room_draw(
        film,
        width,
        height,
        picture,
        across,
        down,
        bins,
        min,
        max,
        clip,
        factor,
        left,
        top,
        window_width,
        window_height,
        map,
        out,
        edition,
        count,
        numbers,
        factors,
    )
}

#[unsafe(no_mangle)]
pub extern "C" fn tz_room_drop(
    film: u32,
    map: &mut [u16],
    count: &mut u32,
    numbers: &mut [u32; 80],
    factors: &mut [f32; 8],
) -> u32
    ensures { dropped_as result map.new (room_cells_from count.new numbers.new factors.new) ≡ flat_dropped (drop_of (room_from_of (room_cells_from count.old numbers.old factors.old)) film map.old) (room_cells_from count.old numbers.old factors.old) }
{
    c_films::room::tz_room_drop(film, map, count, numbers, factors)
}
