// The room's calls. They stand beside those on films, so that one compiled copy of prepare and draw serves both.
ghost use Rattle.std.specs.Prelude.{◌≡◌};
ghost use Rattle.film_sets.specs.Sets.{empty_room};
ghost use Rattle.film_room.specs.Room.{store_of, show_of, drop_of};
ghost use Rattle.c_flat.specs.Flat.{settings_from_of, window_from};
ghost use Rattle.c_flat.specs.Films.{foot_from, drawn_as, flat_drawn};
ghost use Rattle.c_room.specs.Flat.{room_cells_from, room_from_of, cells_of, stored_as, flat_stored, dropped_as, flat_dropped};

use film_settings::Window;

// An empty room: count 0, and zeros in all cells.
#[unsafe(no_mangle)]
pub extern "C" fn tz_room_empty(count: &mut u32, numbers: &mut [u32; 80], factors: &mut [f32; 8])
    ensures { room_cells_from count.new numbers.new factors.new ≡ cells_of empty_room }
{
    let room = film_sets::empty();
    c_room::put_room(count, numbers, factors, &room);
}

#[unsafe(no_mangle)]
pub extern "C" fn tz_room_store(
    film: u32,
    width: u32,
    height: u32,
    picture: &[u16],
    across: u32,
    down: u32,
    bins: u32,
    min: u32,
    max: u32,
    clip: u32,
    factor: f32,
    map: &mut [u16],
    scratch: &mut [u32],
    limit: &mut u32,
    asked: &mut f32,
    used: &mut f64,
    list: &mut [u64],
    edition: u32,
    count: &mut u32,
    numbers: &mut [u32; 80],
    factors: &mut [f32; 8],
) -> u32
    ensures { stored_as result map.new scratch.new list.new (foot_from limit.new asked.new used.new) (room_cells_from count.new numbers.new factors.new) ≡ flat_stored (store_of (room_from_of (room_cells_from count.old numbers.old factors.old)) film width height picture.now (settings_from_of across down bins min max clip factor edition) map.old scratch.old list.old) (foot_from limit.old asked.old used.old) (room_cells_from count.old numbers.old factors.old) }
{
    let s = c_flat::settings_from(across, down, bins, min, max, clip, factor, edition);
    let mut room = c_room::room_from(*count, numbers, factors);
    let answer = film_room::store(
        &mut room, film, width, height, picture, s, map, scratch, list,
    );
    c_room::put_stored(limit, asked, used, count, numbers, factors, answer, &room)
}

#[unsafe(no_mangle)]
pub extern "C" fn tz_room_draw(
    film: u32,
    width: u32,
    height: u32,
    picture: &[u16],
    across: u32,
    down: u32,
    bins: u32,
    min: u32,
    max: u32,
    clip: u32,
    factor: f32,
    left: u32,
    top: u32,
    window_width: u32,
    window_height: u32,
    map: &[u16],
    out: &mut [u16],
    edition: u32,
    count: u32,
    numbers: &[u32; 80],
    factors: &[f32; 8],
) -> u32
    ensures { drawn_as result out.new ≡ flat_drawn (show_of (room_from_of (room_cells_from count numbers.now factors.now)) film width height picture.now (settings_from_of across down bins min max clip factor edition) (window_from left top window_width window_height) map.now out.old) }
{
    let s = c_flat::settings_from(across, down, bins, min, max, clip, factor, edition);
    let room = c_room::room_from(count, numbers, factors);
    let window = Window {
        left,
        top,
        width: window_width,
        height: window_height,
    };
    let answer = film_room::draw(&room, film, width, height, picture, s, window, map, out);
    c_flat::code(answer)
}

#[unsafe(no_mangle)]
pub extern "C" fn tz_room_drop(
    film: u32,
    map: &mut [u16],
    count: &mut u32,
    numbers: &mut [u32; 80],
    factors: &mut [f32; 8],
) -> u32
    ensures { dropped_as result map.new (room_cells_from count.new numbers.new factors.new) ≡ flat_dropped (drop_of (room_from_of (room_cells_from count.old numbers.old factors.old)) film map.old) (room_cells_from count.old numbers.old factors.old) }
{
    let mut room = c_room::room_from(*count, numbers, factors);
    let answer = film_room::drop_film(&mut room, film, map);
    c_room::put_dropped(count, numbers, factors, answer, &room)
}
