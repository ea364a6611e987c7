// One tile of a byte film. It is counted by the wide films' own function, which takes greys of either size, so that no rule is coded twice.
#![tactic(auto)]

ghost use Rattle.std.specs.Prelude.{◌≡◌, ◌≤◌, length};
ghost use Rattle.base_lists.specs.Lists.{onto};
ghost use Rattle.tile_count.specs.Tally.{greys_of, counts_of, CountRectAsks};
ghost use Rattle.tile_map.specs.Tile.{TileMapped};
ghost use Rattle.byte_tile.specs.ByteTile.{ByteMappingAsks};

use tile_clip::Spent;
use tile_count::{Binning, Rect};
use tile_limit::{Clip, Edition};

// The counts of a rectangle of bytes, in the first `bins` entries; entries behind keep their contents.
pub fn count(
    picture: &[u8],
    stride: usize,
    rect: Rect,
    min: u32,
    max: u32,
    bins: u32,
    counts: &mut [u32],
)
    requires { CountRectAsks picture.now stride rect min max bins (length counts.old) × (bins ≤ 256) × (rect.width ≤ 4096) }
    ensures { counts.new ≡ onto counts.old (counts_of min max bins (greys_of picture.now stride rect)) }
{
    let factor = tile_bin::bin_factor(min, max, bins);
    let by = Binning {
        min,
        max,
        bins,
        factor,
    };
    tile_count::count_eight_ways(picture, stride, rect, by, counts);
}

// A tile's mapping from its bytes: counted, then clipped and mapped into a line of its own, then made bytes. The counts stay in the front of the scratch. The answer is what clipping took.
pub fn mapping(
    picture: &[u8],
    stride: usize,
    rect: Rect,
    min: u32,
    max: u32,
    bins: u32,
    clip: Clip,
    scratch: &mut [u32],
    out: &mut [u8],
    edition: Edition,
) -> Spent
    requires { ByteMappingAsks picture.now stride rect min max bins clip (length scratch.old) (length out.old) }
    ensures { TileMapped min max bins edition clip (greys_of picture.now stride rect) scratch.old scratch.new out.old out.new result }
{
    let pixels = (rect.width * rect.height) as u32;
    let entries = bins as usize;
    count(picture, stride, rect, min, max, bins, scratch);
    let mut line = [0u16; 256];
    let spent = tile_map::from_counts(
        clip,
        pixels,
        min,
        max,
        &mut scratch[..entries],
        &mut line[..entries],
        edition,
    );
    byte_narrow::narrow(&line[..entries], out);
    spent
}
