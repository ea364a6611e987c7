// Counting: fills a lent buffer with each tile's raw counts, from which mappings are made with each new factor.
#![tactic(auto)]

ghost use Rattle.std.specs.Prelude.{◌≡◌, ◌*◌, length};
ghost use Rattle.base_lists.specs.Lists.{onto, over};
ghost use Rattle.base_rows.specs.Refuse.{first};
ghost use Rattle.base_rows.specs.Given.{given, said};
ghost use Rattle.film_settings.specs.Settings.{bins_of};
ghost use Rattle.film_count.specs.Counting.{raw_counts, countings, counts_rows, picture_rows, count_rows, count_leaves, count_of, LentAsks, CountReady, CountTileAsks};

use base_rows::Refusal;
use film_settings::Settings;

// Refusal 33, where it applies: the counts take as many entries as the mappings.
pub fn counts_refusal(s: Settings, size: usize) -> Result<(), Refusal>
    requires { LentAsks s }
    ensures { given result ≡ first (counts_rows s size) }
{
    match film_settings::room_refusal(s, size) {
        Ok(()) => Ok(()),
        Err(_) => Err(Refusal::CountsShort),
    }
}

// The first of the refusals 1 to 9 and 31 that applies.
fn picture_refusal(width: u32, height: u32, size: usize, s: Settings) -> Result<(), Refusal>
    ensures { given result ≡ first (picture_rows width height size s) }
{
    film_settings::size_refusal(width, height, size)?;
    film_settings::grid_refusal(width, height, s)?;
    film_settings::range_refusal(s)
}

// The first of counting's refusals that applies. The clip setting plays no part.
fn count_refusal(
    width: u32,
    height: u32,
    picture: &[u16],
    s: Settings,
    size: usize,
) -> Result<(), Refusal>
    ensures { given result ≡ first (count_rows width height picture.now s size) }
{
    picture_refusal(width, height, picture.len(), s)?;
    counts_refusal(s, size)?;
    if !base_range::all_within(picture, s.min, s.max) {
        return Err(Refusal::PixelOutside);
    }
    Ok(())
}

// Counts tile k, in its place among the counts.
#[tactic(auto, using(crate::proofs::Tiles::block_small))]
fn count_tile(picture: &[u16], width: u32, height: u32, s: Settings, k: usize, counts: &mut [u32])
    requires { CountTileAsks width height picture.now s k (length counts.old) }
    ensures { counts.new ≡ over counts.old (k * bins_of s) (raw_counts width height picture.now s k) }
{
    let rect = film_tiles::tile_rect(width, height, s.across, s.down, k);
    let bins = film_settings::bins(s);
    let each = bins as usize;
    let a = k * each;
    let e = a + each;
    tile_count::count(
        picture,
        width as usize,
        rect,
        s.min,
        s.max,
        bins,
        &mut counts[a..e],
    );
}

// Counts all tiles; entries behind the last keep their contents.
#[tactic(auto, using(film_tiles::proofs::Tiles::tiles_most))]
fn count_all(picture: &[u16], width: u32, height: u32, s: Settings, counts: &mut [u32])
    requires { CountReady width height picture.now s (length counts.old) }
    ensures { counts.new ≡ onto counts.old (countings width height picture.now s) }
{
    let tiles = (s.across * s.down) as usize;
    for k in 0..tiles {
        count_tile(picture, width, height, s, k, counts);
    }
}

// Each tile's raw counts in the front of the lent counts, tiles row by row, bins upward.
pub fn count_tiles(
    width: u32,
    height: u32,
    picture: &[u16],
    s: Settings,
    counts: &mut [u32],
) -> Result<(), Refusal>
    ensures { count_leaves (said result) counts.new ≡ count_of width height picture.now s counts.old }
{
    count_refusal(width, height, picture, s, counts.len())?;
    count_all(picture, width, height, s, counts);
    Ok(())
}
