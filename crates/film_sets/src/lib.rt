// The sets of a room: which films' mappings lie in one lent buffer, end to end, and moving them down where one is dropped.
#![tactic(auto)]

ghost use Rattle.std.specs.Prelude.{◌≡◌, ◌≤◌, ◌<◌, ltb, length, take, get_or};
ghost use Rattle.base_rows.specs.Refuse.{first};
ghost use Rattle.base_rows.specs.Given.{given};
ghost use Rattle.film_settings.specs.Settings.{entries_of};
ghost use Rattle.film_sets.specs.Sets.{no_set_of, set_for_of, held, span_of, among, twice, before, fit_rows, with_set_of, without_set_of, moved_down, empty_room};

use base_rows::Refusal;
use film_settings::Settings;
use tile_limit::{Clip, Edition};

// What the mappings of one film were made for.
#[derive(Clone, Copy)]
pub struct Set {
    pub film: u32,
    pub width: u32,
    pub height: u32,
    pub settings: Settings,
}

// The films that are stored: how many, and the set of each.
#[derive(Clone, Copy)]
pub struct Room {
    pub count: u32,
    pub sets: [Set; 8],
}

// Moves the entries from `from` up to `end` down to `to`; all others stay. They go in blocks of 64, the lowest first: blocks that
// do not overlap are copied at once.
pub fn move_down(map: &mut [u16], to: usize, from: usize, end: usize)
    requires { (to ≤ from) × (from ≤ end) × (end ≤ length map.old) }
    ensures { map.new ≡ moved_down map.old to from end }
{
    let blocks = (end - from) / 64;
    for b in 0..blocks {
        let i = from + 64 * b;
        map.copy_within(i..i + 64, to + (i - from));
    }
    let i = from + 64 * blocks;
    map.copy_within(i..end, to + (i - from));
}

// The set of no film.
#[tactic(auto, unfolding(crate::specs::Sets::no_set_of, film_settings::specs::Settings::no_settings))]
fn no_set() -> Set
    ensures { result ≡ no_set_of }
{
    let settings = Settings {
        across: 0,
        down: 0,
        bins: 0,
        min: 0,
        max: 0,
        clip: Clip::Off,
        edition: Edition::Ours,
    };
    Set {
        film: 0,
        width: 0,
        height: 0,
        settings,
    }
}

// A room in which no film is stored.
#[tactic(auto, unfolding(crate::specs::Sets::empty_room, base_lists::specs::Lists::tab))]
pub fn empty() -> Room
    ensures { result ≡ empty_room }
{
    Room {
        count: 0,
        sets: [no_set(); 8],
    }
}

// The set at place i.
pub fn at(room: &Room, i: usize) -> Set
    requires { i < 8 }
    ensures { result ≡ get_or room.now.sets i no_set_of }
{
    room.sets[i]
}

// The sets of the films that are stored.
#[tactic(auto, using(crate::proofs::Finds::held_is))]
fn stored(room: &Room) -> &[Set]
    requires { room.now.count ≤ 8 }
    ensures { result.now ≡ held room.now }
{
    &room.sets[..room.count as usize]
}

// How many sets stand before the one of this number.
pub fn place_of(room: &Room, number: u32) -> usize
    requires { room.now.count ≤ 8 }
    ensures { result ≡ before number (held room.now) }
{
    let sets = stored(room);
    sets.iter()
        .position(|r| r.film == number)
        .unwrap_or(sets.len())
}

// One set more.
#[tactic(auto, unfolding(crate::specs::Sets::with_set_of))]
pub fn with_set(room: &mut Room, r: Set)
    requires { room.old.count < 8 }
    ensures { room.new ≡ with_set_of room.old r }
{
    room.sets[room.count as usize] = r;
    room.count += 1;
}

// The set of a film.
pub fn set_for(film: u32, width: u32, height: u32, s: Settings) -> Set
    ensures { result ≡ set_for_of film width height s }
{
    Set {
        film,
        width,
        height,
        settings: film_settings::kept(s),
    }
}

// Whether one of the sets is of this number.
fn among(sets: &[Set], number: u32) -> bool
    ensures { result ≡ among number sets.now }
{
    sets.iter().any(|r| r.film == number)
}

// Whether two sets are of one number.
#[tactic(auto, using(crate::proofs::Finds::twice_end))]
fn twice(sets: &[Set]) -> bool
    ensures { result ≡ twice sets.now }
{
    for i in 0..sets.len() {
        if among(&sets[i + 1..], sets[i].film) {
            return true;
        }
    }
    false
}

// The entries of a set of these settings, which are no more than `most`.
fn entries(s: Settings, most: usize) -> usize
    requires { entries_of s ≤ most }
    ensures { result ≡ entries_of s }
{
    (s.across as usize) * (s.down as usize) * (film_settings::bins(s) as usize)
}

// Whether a set of these settings takes more than `left` entries. No product of a record that nobody made overflows.
#[tactic(auto, using(crate::proofs::Sizes::bins_some, crate::proofs::Sizes::larger_is))]
fn larger(s: Settings, left: usize) -> bool
    ensures { result ≡ ltb left (entries_of s) }
{
    let tiles = (s.across as usize) * (s.down as usize);
    left / (film_settings::bins(s) as usize) < tiles
}

// The entries of the first n sets, end to end.
#[tactic(auto, using(crate::proofs::Finds::span_at, crate::proofs::Finds::span_most, crate::proofs::Finds::span_none))]
pub fn span(room: &Room, n: usize, size: usize) -> usize
    requires { (room.now.count ≤ 8) × (n ≤ room.now.count) × (span_of (held room.now) ≤ size) }
    ensures { result ≡ span_of (take n (held room.now)) }
{
    let mut sum = 0;
    for r in &stored(room)[..n] {
        sum += entries(r.settings, size);
    }
    sum
}

// Whether the sets, end to end, exceed `size` entries.
#[tactic(auto, using(crate::proofs::Finds::span_at, crate::proofs::Finds::span_most, crate::proofs::Finds::span_none))]
fn exceeds(sets: &[Set], size: usize) -> bool
    ensures { result ≡ ltb size (span_of sets.now) }
{
    let mut left = size;
    for r in sets {
        if larger(r.settings, left) {
            return true;
        }
        left -= entries(r.settings, left);
    }
    false
}

// Refusal 40, where it applies.
#[tactic(auto, unfolding(base_rows::specs::Refuse::first, crate::specs::Sets::fit_rows))]
pub fn room_refusal(room: &Room, size: usize) -> Result<(), Refusal>
    ensures { given result ≡ first (fit_rows room.now size) }
{
    if 8 < room.count || twice(stored(room)) || exceeds(stored(room), size) {
        return Err(Refusal::RoomRecord);
    }
    Ok(())
}

// The room without the set at place i: the later ones move down a place, and the places behind the last keep what they held.
pub fn without_set(room: &mut Room, i: usize)
    requires { (i < room.old.count) × (room.old.count ≤ 8) }
    ensures { room.new ≡ without_set_of room.old i }
{
    let n = room.count as usize;
    room.sets.copy_within(i + 1..n, i);
    room.count -= 1;
}
