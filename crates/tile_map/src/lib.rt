// One tile: its counts clipped, and the mapping of counts.
#![tactic(auto)]

ghost use Rattle.std.specs.Prelude.{◌≡◌, length};
ghost use Rattle.base_lists.specs.Lists.{onto};
ghost use Rattle.tile_count.specs.Tally.{greys_of};
ghost use Rattle.tile_map.specs.Tile.{mapping_of, MapBinsAsks, ClipInAsks, InClipped, ClipByAsks, ByClipped, FromCountsAsks, FromMapped, MappingAsks, TileMapped};

use tile_clip::Spent;
use tile_count::Rect;
use tile_limit::{Clip, Edition};

// The mapping of counts: each bin's grey by the running sum of the counts up to it. The range over the pixels is one factor for all bins, so that no sum is divided: a product and a division by 2^45, which is a shift.
pub fn map(counts: &[u32], pixels: u32, min: u32, max: u32, out: &mut [u16])
    requires { MapBinsAsks counts.now pixels min max (length out.old) }
    ensures { out.new ≡ onto out.old (mapping_of min max pixels counts.now) }
{
    let range = (max - min) as u64;
    let scale = range * 35184372088832 / (pixels as u64) + 1;
    let mut sum = 0u64;
    for (k, count) in counts.iter().enumerate() {
        sum += *count as u64;
        out[k] = (min + (sum * scale / 35184372088832) as u32) as u16;
    }
}

// What clipping a tile's counts comes to: what their mapping divides by, and what it took.
#[derive(Clone, Copy)]
pub struct Clipped {
    pub over: u32,
    pub spent: Spent,
}

// The counts clipped at a limit by an edition's rule. The rule of 1986 has no walk, and so no looks.
fn clip_in(edition: Edition, pixels: u32, most: u32, counts: &mut [u32]) -> Clipped
    requires { ClipInAsks pixels most counts.old }
    ensures { InClipped edition pixels most counts.old counts.new result }
{
    match edition {
        Edition::Ours => {
            let spent = tile_clip::clip(counts, most);
            Clipped {
                over: pixels,
                spent,
            }
        }
        Edition::Of1986 => {
            let excess = tile_clip::excess(counts, most);
            let over = tile_clip1986::raise(counts, most);
            let spent = Spent { excess, looks: 0 };
            Clipped { over, spent }
        }
    }
}

// The counts clipped by the clip setting; with clip off the raw counts stay, and nothing is taken.
pub fn clip_by(clip: Clip, pixels: u32, counts: &mut [u32], edition: Edition) -> Clipped
    requires { ClipByAsks clip pixels counts.old }
    ensures { ByClipped edition clip pixels counts.old counts.new result }
{
    match clip {
        Clip::Off => Clipped {
            over: pixels,
            spent: Spent {
                excess: 0,
                looks: 0,
            },
        },
        Clip::Factor(factor) => {
            let most = tile_limit::limit(factor, pixels, counts.len() as u32);
            clip_in(edition, pixels, most, counts)
        }
    }
}

// Clips the counts by the setting, and maps them: what is left of `mapping` behind `count`. The answer is what clipping took.
pub fn from_counts(
    clip: Clip,
    pixels: u32,
    min: u32,
    max: u32,
    counts: &mut [u32],
    out: &mut [u16],
    edition: Edition,
) -> Spent
    requires { FromCountsAsks clip pixels min max counts.old (length out.old) }
    ensures { FromMapped edition clip pixels min max counts.old counts.new out.old out.new result }
{
    let clipped = clip_by(clip, pixels, counts, edition);
    map(counts, clipped.over, min, max, out);
    clipped.spent
}

// A tile's mapping from its pixels: counted, clipped, mapped. The counts stay in the front of the scratch. The answer is what clipping took.
pub fn mapping(
    picture: &[u16],
    stride: usize,
    rect: Rect,
    min: u32,
    max: u32,
    bins: u32,
    clip: Clip,
    scratch: &mut [u32],
    out: &mut [u16],
    edition: Edition,
) -> Spent
    requires { MappingAsks picture.now stride rect min max bins clip (length scratch.old) (length out.old) }
    ensures { TileMapped min max bins edition clip (greys_of picture.now stride rect) scratch.old scratch.new out.old out.new result }
{
    let pixels = (rect.width * rect.height) as u32;
    tile_count::count(picture, stride, rect, min, max, bins, scratch);
    from_counts(
        clip,
        pixels,
        min,
        max,
        &mut scratch[..bins as usize],
        out,
        edition,
    )
}
