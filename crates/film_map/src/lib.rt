// Mapping: the mappings and the footer of a film from the counts of its tiles, so that a new factor asks no new count.
#![tactic(auto)]

ghost use Rattle.std.specs.Prelude.{◌≡◌, ◌*◌, ◌≤◌, eqb, length, take, drop};
ghost use Rattle.base_lists.specs.Lists.{total, onto};
ghost use Rattle.base_rows.specs.Refuse.{first};
ghost use Rattle.base_rows.specs.Given.{given};
ghost use Rattle.film_tiles.specs.Tiles.{pixels_in};
ghost use Rattle.film_prepare.specs.Prepare.{prepared_says, prepare_leaves};
ghost use Rattle.film_count.specs.Counting.{counts_in, LentAsks};
ghost use Rattle.film_map.specs.Counts.{adds_up_of, tiling_rows, lent_rows, map_rows_of, map_of, AllSumsAsks, TileSumAsks, MapAllAsks, MapOneAsks, CopyTileAsks, OneMapped, AllMapped};

use base_rows::Refusal;
use film_prepare::Prepared;
use film_settings::Settings;
use tile_clip::Spent;

// Whether counts add up to these pixels. The sum of 4096 counts of 32 bits does not wrap in 64.
#[tactic(auto, using(base_lists::proofs::Tallies::total_next), unfolding(base_lists::specs::Lists::total))]
fn adds_up(counts: &[u32], pixels: u32) -> bool
    requires { length counts.now ≤ 4096 }
    ensures { result ≡ eqb (total counts.now) pixels }
{
    let mut sum: u64 = 0;
    for n in counts {
        sum += *n as u64;
    }
    sum == pixels as u64
}

// Whether the counts of tile k add up to its own pixels.
fn tile_adds_up(width: u32, height: u32, s: Settings, k: usize, counts: &[u32]) -> bool
    requires { TileSumAsks width height s k (length counts.now) }
    ensures { result ≡ eqb (total (counts_in s counts.now k)) (pixels_in width height s k) }
{
    let own = film_tiles::tile_pixels(width, height, s, k);
    let each = film_settings::bins(s) as usize;
    let from = k * each;
    let to = from + each;
    adds_up(&counts[from..to], own)
}

// Whether each tile's counts add up to its pixels.
fn all_add_up(width: u32, height: u32, s: Settings, counts: &[u32]) -> bool
    requires { AllSumsAsks width height s (length counts.now) }
    ensures { result ≡ adds_up_of width height s counts.now }
{
    let tiles = (s.across * s.down) as usize;
    for k in 0..tiles {
        if !tile_adds_up(width, height, s, k, counts) {
            return false;
        }
    }
    true
}

// The first of the refusals 1, 3 to 9, 31 and 10 that applies.
fn tiling_refusal(width: u32, height: u32, s: Settings) -> Result<(), Refusal>
    ensures { given result ≡ first (tiling_rows width height s) }
{
    film_settings::side_refusal(width, height)?;
    film_settings::grid_refusal(width, height, s)?;
    film_settings::grey_refusal(s)
}

// The first of the refusals 11, 12, 32 and 33 that applies.
fn lent_refusal(
    s: Settings,
    room: usize,
    scratch: usize,
    list: usize,
    size: usize,
) -> Result<(), Refusal>
    requires { LentAsks s }
    ensures { given result ≡ first (lent_rows s room scratch list size) }
{
    film_settings::room_refusal(s, room)?;
    if scratch < (film_settings::bins(s) as usize) {
        return Err(Refusal::ScratchShort);
    }
    if list < (2 * (s.across * s.down) as usize) {
        return Err(Refusal::ListShort);
    }
    film_count::counts_refusal(s, size)
}

// The first of mapping's refusals that applies.
fn map_refusal(
    width: u32,
    height: u32,
    s: Settings,
    counts: &[u32],
    room: usize,
    scratch: usize,
    list: usize,
) -> Result<(), Refusal>
    ensures { given result ≡ first (map_rows_of width height s counts.now room scratch list) }
{
    tiling_refusal(width, height, s)?;
    lent_refusal(s, room, scratch, list, counts.len())?;
    if !all_add_up(width, height, s, counts) {
        return Err(Refusal::CountsSum);
    }
    Ok(())
}

// Copies the counts of tile k into the front of the scratch: clipping works in place, and the counts stay for the next factor.
fn copy_tile(counts: &[u32], each: usize, k: usize, scratch: &mut [u32])
    requires { CopyTileAsks each k (length counts.now) (length scratch.old) }
    ensures { scratch.new ≡ onto scratch.old (take each (drop (k * each) counts.now)) }
{
    let start = k * each;
    let end = start + each;
    base_lists::copy(&counts[start..end], scratch);
}

// Makes the mapping of tile k from its counts, in its place in the map buffer. The answer is what clipping took.
fn map_one(
    width: u32,
    height: u32,
    s: Settings,
    k: usize,
    counts: &[u32],
    map: &mut [u16],
    scratch: &mut [u32],
) -> Spent
    requires { MapOneAsks width height s counts.now k (length map.old) (length scratch.old) }
    ensures { OneMapped width height s counts.now k map.old map.new scratch.old scratch.new result }
{
    let pixels = film_tiles::tile_pixels(width, height, s, k);
    let each = film_settings::bins(s) as usize;
    let at = k * each;
    let behind = at + each;
    copy_tile(counts, each, k, scratch);
    tile_map::from_counts(
        s.clip,
        pixels,
        s.min,
        s.max,
        &mut scratch[..each],
        &mut map[at..behind],
        s.edition,
    )
}

// Makes the mappings of all tiles from their counts, and lays down what clipping each took; the scratch is left zero.
fn map_all(
    width: u32,
    height: u32,
    s: Settings,
    counts: &[u32],
    map: &mut [u16],
    scratch: &mut [u32],
    list: &mut [u64],
)
    requires { MapAllAsks width height s counts.now (length map.old) (length scratch.old) (length list.old) }
    ensures { AllMapped width height s counts.now map.old map.new scratch.old scratch.new list.old list.new }
{
    let tiles = (s.across * s.down) as usize;
    for k in 0..tiles {
        let spent = map_one(width, height, s, k, counts, map, scratch);
        film_tiles::put_spent(list, k, spent);
    }
    let each = film_settings::bins(s) as usize;
    base_lists::clear(scratch, each);
}

// The mappings of a film from its counts in the map buffer, with the record of what they were made for and the footer: what prepare leaves.
pub fn map_counts(
    film: u32,
    width: u32,
    height: u32,
    s: Settings,
    counts: &[u32],
    map: &mut [u16],
    scratch: &mut [u32],
    list: &mut [u64],
) -> Result<Prepared, Refusal>
    ensures { prepare_leaves (prepared_says result) map.new scratch.new list.new ≡ map_of film width height s counts.now map.old scratch.old list.old }
{
    map_refusal(
        width,
        height,
        s,
        counts,
        map.len(),
        scratch.len(),
        list.len(),
    )?;
    let kept = film_settings::made_for(film, width, height, s);
    let footer = film_tiles::foot(width, height, s);
    let one = film_settings::clip_one(s.clip);
    if one {
        return Ok(Prepared { kept, footer });
    }
    map_all(width, height, s, counts, map, scratch, list);
    Ok(Prepared { kept, footer })
}
