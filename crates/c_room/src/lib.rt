// The room record as the calls for C pass it: its count, ten numbers a set and a factor a set: film, width, height, across,
// down, bins, min, max, clip, edition. What store and drop answer goes out to its cells.
#![tactic(auto)]

ghost use Rattle.std.specs.Prelude.{◌≡◌, ◌<◌, get_or};
ghost use Rattle.std.specs.Float.{nan};
ghost use Rattle.base_rows.specs.Given.{said};
ghost use Rattle.c_flat.specs.Films.{foot_from};
ghost use Rattle.c_room.specs.Flat.{set_from_of, room_cells_from, room_from_of, set_numbers_of, room_numbers_of, factor_at, room_factors_of, cells_of, stored_cells_from, stored_cells, dropped_cells_from, dropped_cells};

use base_rows::Refusal;
use film_sets::{Room, Set};
use film_settings::Footer;

// One of the numbers.
fn cell(numbers: &[u32; 80], i: usize) -> u32
    requires { i < 80 }
    ensures { result ≡ get_or numbers.now i 0 }
{
    numbers[i]
}

// One of the factors.
fn factor_cell(factors: &[f32; 8], i: usize) -> f32
    requires { i < 8 }
    ensures { result ≡ get_or factors.now i nan }
{
    factors[i]
}

// The set in place i of a record.
fn set_from(numbers: &[u32; 80], factors: &[f32; 8], i: usize) -> Set
    requires { i < 8 }
    ensures { result ≡ set_from_of numbers.now factors.now i }
{
    let a = i * 10;
    let settings = c_flat::settings_from(
        cell(numbers, a + 3),
        cell(numbers, a + 4),
        cell(numbers, a + 5),
        cell(numbers, a + 6),
        cell(numbers, a + 7),
        cell(numbers, a + 8),
        factor_cell(factors, i),
        cell(numbers, a + 9),
    );
    Set {
        film: cell(numbers, a),
        width: cell(numbers, a + 1),
        height: cell(numbers, a + 2),
        settings,
    }
}

// The room that a record's cells hold.
pub fn room_from(count: u32, numbers: &[u32; 80], factors: &[f32; 8]) -> Room
    ensures { result ≡ room_from_of (room_cells_from count numbers.now factors.now) }
{
    Room {
        count,
        sets: [
            set_from(numbers, factors, 0),
            set_from(numbers, factors, 1),
            set_from(numbers, factors, 2),
            set_from(numbers, factors, 3),
            set_from(numbers, factors, 4),
            set_from(numbers, factors, 5),
            set_from(numbers, factors, 6),
            set_from(numbers, factors, 7),
        ],
    }
}

// A set's ten numbers.
fn set_numbers(r: Set) -> [u32; 10]
    ensures { result ≡ set_numbers_of r }
{
    let s = r.settings;
    [
        r.film,
        r.width,
        r.height,
        s.across,
        s.down,
        s.bins,
        s.min,
        s.max,
        c_flat::clip_number(s.clip),
        c_flat::edition_number(s.edition),
    ]
}

// The numbers of all eight places, ten a set.
fn room_numbers(room: &Room) -> [u32; 80]
    ensures { result ≡ room_numbers_of room.now }
{
    let mut numbers = [0; 80];
    for i in 0..8 {
        let ten = set_numbers(film_sets::at(room, i));
        base_lists::copy(&ten, &mut numbers[i * 10..i * 10 + 10]);
    }
    numbers
}

// The factor in place i, 0.0 where clip is off.
fn set_factor(room: &Room, i: usize) -> f32
    requires { i < 8 }
    ensures { result ≡ factor_at room.now i }
{
    c_flat::clip_factor(film_sets::at(room, i).settings.clip)
}

// The factors of all eight places.
fn room_factors(room: &Room) -> [f32; 8]
    ensures { result ≡ room_factors_of room.now }
{
    [
        set_factor(room, 0),
        set_factor(room, 1),
        set_factor(room, 2),
        set_factor(room, 3),
        set_factor(room, 4),
        set_factor(room, 5),
        set_factor(room, 6),
        set_factor(room, 7),
    ]
}

// A room goes out to its cells, all of them.
pub fn put_room(count: &mut u32, numbers: &mut [u32; 80], factors: &mut [f32; 8], room: &Room)
    ensures { room_cells_from count.new numbers.new factors.new ≡ cells_of room.now }
{
    *count = room.count;
    *numbers = room_numbers(room);
    *factors = room_factors(room);
}

// What store answers goes out: a stored film's footer and the room to their cells. A refusal writes to none.
pub fn put_stored(
    limit: &mut u32,
    asked: &mut f32,
    used: &mut f64,
    count: &mut u32,
    numbers: &mut [u32; 80],
    factors: &mut [f32; 8],
    answer: Result<Footer, Refusal>,
    room: &Room,
) -> u32
    ensures { stored_cells_from result (foot_from limit.new asked.new used.new) (room_cells_from count.new numbers.new factors.new) ≡ stored_cells (said answer) room.now (foot_from limit.old asked.old used.old) (room_cells_from count.old numbers.old factors.old) }
{
    match answer {
        Ok(foot) => {
            c_flat::put_footer(limit, asked, used, foot);
            put_room(count, numbers, factors, room);
            0
        }
        Err(r) => r.number(),
    }
}

// What drop answers goes out, likewise.
pub fn put_dropped(
    count: &mut u32,
    numbers: &mut [u32; 80],
    factors: &mut [f32; 8],
    answer: Result<(), Refusal>,
    room: &Room,
) -> u32
    ensures { dropped_cells_from result (room_cells_from count.new numbers.new factors.new) ≡ dropped_cells (said answer) room.now (room_cells_from count.old numbers.old factors.old) }
{
    match answer {
        Ok(()) => {
            put_room(count, numbers, factors, room);
            0
        }
        Err(r) => r.number(),
    }
}
