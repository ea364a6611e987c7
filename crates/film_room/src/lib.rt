// One room for many films: their mappings stored, drawn and dropped in a single lent buffer.
#![tactic(auto)]

ghost use Rattle.std.specs.Prelude.{◌≡◌, cond, eqb};
ghost use Rattle.base_rows.specs.Refuse.{first};
ghost use Rattle.base_rows.specs.Given.{number_of, given, said};
ghost use Rattle.film_room.specs.Room.{enter_rows, store_of, store_leaves, drop_rows, drop_of, drop_leaves, set_rows, show_of};
ghost use Rattle.film_draw.specs.Draw.{draw_leaves};

use base_rows::Refusal;
use film_sets::{Room, Set};
use film_settings::{Footer, Settings, Window};

// The first of the refusals 40 and 38 that applies.
fn stored_refusal(room: &Room, film: u32, size: usize) -> Result<(), Refusal>
    ensures { given result ≡ first (drop_rows room.now film size) }
{
    film_sets::room_refusal(room, size)?;
    if room.count as usize <= film_sets::place_of(room, film) {
        return Err(Refusal::NotStored);
    }
    Ok(())
}

// Drop: the film's set is taken out, and the later ones move down. A refusal leaves room and buffer as they were.
pub fn drop_film(room: &mut Room, film: u32, map: &mut [u16]) -> Result<(), Refusal>
    ensures { drop_leaves (said result) room.new map.new ≡ drop_of room.old film map.old }
{
    let size = map.len();
    stored_refusal(room, film, size)?;
    let i = film_sets::place_of(room, film);
    let a = film_sets::span(room, i, size);
    let b = film_sets::span(room, i + 1, size);
    let e = film_sets::span(room, room.count as usize, size);
    film_sets::move_down(map, a, b, e);
    film_sets::without_set(room, i);
    Ok(())
}

// A refusal of prepare's as the room tells it: 37 in 11's place.
fn renumbered(r: Refusal) -> Refusal
    ensures { number_of result ≡ cond (eqb (number_of r) 11) 37 (number_of r) }
{
    match r {
        Refusal::MapShort => Refusal::RoomShort,
        other => other,
    }
}

// The first of the refusals 40, 35 and 36 that applies.
fn place_refusal(room: &Room, film: u32, size: usize) -> Result<(), Refusal>
    ensures { given result ≡ first (enter_rows room.now film size) }
{
    film_sets::room_refusal(room, size)?;
    if film_sets::place_of(room, film) < room.count as usize {
        return Err(Refusal::AlreadyStored);
    }
    if room.count == 8 {
        return Err(Refusal::RoomFull);
    }
    Ok(())
}

// Store: the film is prepared behind the last set, and its set stands behind the last in the record. A refusal leaves all as it was.
pub fn store(
    room: &mut Room,
    film: u32,
    width: u32,
    height: u32,
    picture: &[u16],
    s: Settings,
    map: &mut [u16],
    scratch: &mut [u32],
    looks: &mut [u64],
) -> Result<Footer, Refusal>
    ensures { store_leaves (said result) room.new map.new scratch.new looks.new ≡ store_of room.old film width height picture.now s map.old scratch.old looks.old }
{
    let size = map.len();
    place_refusal(room, film, size)?;
    let a = film_sets::span(room, room.count as usize, size);
    let made = film_prepare::prepare(
        film,
        width,
        height,
        picture,
        s,
        &mut map[a..],
        scratch,
        looks,
    );
    match made {
        Ok(prepared) => {
            let set = film_sets::set_for(film, width, height, s);
            film_sets::with_set(room, set);
            Ok(prepared.footer)
        }
        Err(r) => Err(renumbered(r)),
    }
}

// Refusal 15, where a set is of another size or of other settings.
fn set_refusal(width: u32, height: u32, s: Settings, r: Set) -> Result<(), Refusal>
    ensures { given result ≡ first (set_rows width height s r) }
{
    if width != r.width || height != r.height {
        return Err(Refusal::OtherRecord);
    }
    film_record::kept_refusal(s, r.settings)?;
    film_record::edition_refusal(s, r.settings)
}

// Draw: a window of the rendered film from its set's entries, as if it alone had been prepared. Nothing in the room changes.
pub fn draw(
    room: &Room,
    film: u32,
    width: u32,
    height: u32,
    picture: &[u16],
    s: Settings,
    win: Window,
    map: &[u16],
    out: &mut [u16],
) -> Result<(), Refusal>
    ensures { draw_leaves (said result) out.new ≡ show_of room.now film width height picture.now s win map.now out.old }
{
    let size = map.len();
    stored_refusal(room, film, size)?;
    film_settings::setting_refusal(width, height, picture.len(), s)?;
    let i = film_sets::place_of(room, film);
    set_refusal(width, height, s, film_sets::at(room, i))?;
    let a = film_sets::span(room, i, size);
    let e = film_sets::span(room, i + 1, size);
    let record = film_settings::made_for(film, width, height, s);
    film_draw::draw(
        film,
        width,
        height,
        picture,
        s,
        record,
        win,
        &map[a..e],
        out,
    )
}
