// The mapped value of one bin by counts, which are clipped first: what an engine asks that keeps no mapping.
#![tactic(auto)]

ghost use Rattle.std.specs.Prelude.{◌≡◌, ◌+◌, ◌≤◌, ◌<◌, length, take};
ghost use Rattle.base_lists.specs.Lists.{total};
ghost use Rattle.tile_limit.specs.declared.Edition.TheVariants.{Ours};
ghost use Rattle.tile_map.specs.Tile.{clipped_in, clipped_by, divided_in, divided_by, ClipInAsks, ClipByAsks};
ghost use Rattle.tile_value.specs.Value.{ValueAsks, ValueGiven, LimitedAsks, LimitedGiven, SpanValueAsks, SpanValueGiven};

use tile_limit::{Clip, Edition};

// The counts clipped at a limit by an edition's rule; the answer is what their mapping divides by.
fn clip_in(edition: Edition, pixels: u32, most: u32, counts: &mut [u32]) -> u32
    requires { ClipInAsks pixels most counts.old }
    ensures { (counts.new ≡ clipped_in edition most counts.old) × (result ≡ divided_in edition pixels (clipped_in edition most counts.old)) }
{
    match edition {
        Edition::Ours => {
            tile_clip::clip(counts, most);
            pixels
        }
        Edition::Of1986 => tile_clip1986::raise(counts, most),
    }
}

// The counts clipped by the clip setting; with clip off the raw counts stay.
fn clip_by(clip: Clip, pixels: u32, counts: &mut [u32], edition: Edition) -> u32
    requires { ClipByAsks clip pixels counts.old }
    ensures { (counts.new ≡ clipped_by edition clip pixels counts.old) × (result ≡ divided_by edition clip pixels counts.old) }
{
    match clip {
        Clip::Off => pixels,
        Clip::Factor(factor) => {
            let most = tile_limit::limit(factor, pixels, counts.len() as u32);
            clip_in(edition, pixels, most, counts)
        }
    }
}

// The sum of the counts of bins 0 to k.
pub fn through(counts: &[u32], k: usize) -> u64
    requires { (k < length counts.now) × (total counts.now ≤ 4198400) }
    ensures { result ≡ total (take (k + 1) counts.now) }
{
    let mut sum = 0u64;
    for count in &counts[..=k] {
        sum += *count as u64;
    }
    sum
}

// Clips the counts by the setting, and gives the mapped value of bin k alone, with rule 5's own division.
pub fn value(
    clip: Clip,
    pixels: u32,
    min: u32,
    max: u32,
    k: usize,
    counts: &mut [u32],
    edition: Edition,
) -> u32
    requires { ValueAsks clip pixels min max k counts.old }
    ensures { ValueGiven edition clip pixels min max k counts.old counts.new result }
{
    let whole = clip_by(clip, pixels, counts, edition);
    let sum = through(&counts[..], k);
    let range = (max - min) as u64;
    min + (sum * range / (whole as u64)) as u32
}

// The mapped value of bin k at a limit in our edition, where only the bins of the part, from bin `at` on, hold anything. It is not known
// where the others do not stay under the limit.
fn value_limited(
    most: u32,
    pixels: u32,
    min: u32,
    max: u32,
    k: usize,
    bins: usize,
    at: usize,
    part: &mut [u32],
) -> Option<u32>
    requires { LimitedAsks most pixels min max k bins at part.old }
    ensures { LimitedGiven most pixels min max k bins at part.old part.new result }
{
    let Some(below) = tile_clip::clip_span(part, most, bins, at) else {
        return None;
    };
    let sum = below + through(&part[..], k - at);
    let range = (max - min) as u64;
    Some(min + (sum * range / (pixels as u64)) as u32)
}

// The same by the clip setting. With clip off there is nothing to pass over but a sum.
fn value_ours(
    clip: Clip,
    pixels: u32,
    min: u32,
    max: u32,
    k: usize,
    bins: usize,
    at: usize,
    part: &mut [u32],
) -> Option<u32>
    requires { SpanValueAsks clip pixels min max k bins at part.old }
    ensures { SpanValueGiven Ours clip pixels min max k bins at part.old part.new result }
{
    match clip {
        Clip::Off => None,
        Clip::Factor(factor) => {
            let most = tile_limit::limit(factor, pixels, bins as u32);
            value_limited(most, pixels, min, max, k, bins, at, part)
        }
    }
}

// The mapped value of bin k where only the bins of the part, from bin `at` on, hold anything: what `value` gives for all bins, if it is
// known. The clip rule of 1986 has no leftover to hand out, and is left to all bins.
pub fn value_span(
    clip: Clip,
    pixels: u32,
    min: u32,
    max: u32,
    k: usize,
    bins: usize,
    at: usize,
    part: &mut [u32],
    edition: Edition,
) -> Option<u32>
    requires { SpanValueAsks clip pixels min max k bins at part.old }
    ensures { SpanValueGiven edition clip pixels min max k bins at part.old part.new result }
{
    match edition {
        Edition::Ours => value_ours(clip, pixels, min, max, k, bins, at, part),
        Edition::Of1986 => None,
    }
}
