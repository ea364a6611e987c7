// A run's pixels from a table of its bins where one pays, else pixel by pixel, and how many sums moved.
#![tactic(auto)]

ghost use Rattle.std.specs.Prelude.{cond, ◌≡◌, ◌+◌, ◌-◌, ◌*◌, ◌≤◌, ◌<◌, eqb, length};
ghost use Rattle.pixel_place.specs.Blend.{Sound, moved};
ghost use Rattle.pixel_table.specs.Table.{blended_run, side_at, Tiles, RunAsks};
ghost use Rattle.pixel_sums.specs.Sums.{moved_in, least_of, greatest_of, pays_for, sums_moved, Stands, PixelAsks};

use pixel_place::Place;
use pixel_table::{Corners, Ends, Spot};

// The least and the greatest bin of a run. None is asked by itself, so that several go at once.
fn ends_of(ks: &[u16]) -> Ends
    ensures { (result.low ≡ least_of ks.now) × (result.high ≡ greatest_of ks.now) }
{
    let mut low = u16::MAX;
    let mut high = u16::MIN;
    for k in ks {
        low = low.min(*k);
        high = high.max(*k);
    }
    Ends { low, high }
}

// The pairs of both sides of bin k in one number, the right one from 2^32 on: two products for four.
fn pairs_of(row: Place, corners: Corners, k: usize) -> u64
    requires { Sound 16 2048 row × Tiles corners.upper_left.now corners.upper_right.now corners.lower_left.now corners.lower_right.now (length corners.upper_left.now) × (k < length corners.upper_left.now) × (length corners.upper_left.now ≤ 4096) }
    ensures { result ≡ side_at row corners.entry.upper_left.now corners.entry.lower_left.now k + 4294967296 * side_at row corners.entry.upper_right.now corners.entry.lower_right.now k }
{
    let above = (corners.upper_left[k] as u64) + 4294967296 * (corners.upper_right[k] as u64);
    let below = (corners.lower_left[k] as u64) + 4294967296 * (corners.lower_right[k] as u64);
    (row.lowerweight as u64) * above + (row.upperweight as u64) * below
}

// The place of the pixel i further along between the same tiles.
fn along(column: Place, i: usize) -> Place
    requires { Sound 16 2048 column × (i ≤ column.lowerweight) }
    ensures { result ≡ moved column i }
{
    Place {
        lowerweight: column.lowerweight - (i as u32),
        upperweight: column.upperweight + (i as u32),
        ..column
    }
}

// A pixel's bin, the pairs of that bin, its weighted sum, and how many sums have moved.
#[derive(Clone, Copy)]
struct Sum {
    bin: u16,
    left: u32,
    right: u32,
    sum: u64,
    moved: usize,
}

// The weighted sum of pixel i, of bin k: where the pixel before it had that bin its sum moves.
fn next(was: Sum, k: u16, i: usize, corners: Corners, spot: Spot) -> Sum
    requires { PixelAsks spot.column spot.row corners.upper_left.now corners.upper_right.now corners.lower_left.now corners.lower_right.now (length corners.upper_left.now) i k × (was.moved ≤ i) × (k ≡ was.bin → (0 < i) × Stands spot.column spot.row corners.upper_left.now corners.upper_right.now corners.lower_left.now corners.lower_right.now (i - 1) k was) }
    ensures { Stands spot.column spot.row corners.entry.upper_left.now corners.entry.upper_right.now corners.entry.lower_left.now corners.entry.lower_right.now i k result × (result.moved ≡ was.moved + cond (eqb k was.bin) 1 0) }
{
    if k == was.bin {
        // Order 4: "let the weighted sum move by the mapped differences where the bin stays the same".
        Sum {
            sum: was.sum + (was.right as u64) - (was.left as u64),
            moved: was.moved + 1,
            ..was
        }
    } else {
        let pairs = pairs_of(spot.row, corners, k as usize);
        let left = (pairs % 4294967296) as u32;
        let right = (pairs / 4294967296) as u32;
        let sum = pixel_place::sides(along(spot.column, i), left, right);
        Sum {
            bin: k,
            left,
            right,
            sum,
            moved: was.moved,
        }
    }
}

// Renders a run's pixels, whose bins stand in their places, pixel by pixel: weighed from the four tiles, or moved. Answers how many moved.
fn weigh_run(pixels: &mut [u16], corners: Corners, spot: Spot) -> usize
    requires { RunAsks spot.column spot.row corners.upper_left.now corners.upper_right.now corners.lower_left.now corners.lower_right.now (length corners.upper_left.now) pixels.old }
    ensures { (pixels.new ≡ blended_run spot.column spot.row corners.entry.upper_left.now corners.entry.upper_right.now corners.entry.lower_left.now corners.entry.lower_right.now pixels.old) × (result ≡ moved_in pixels.old) }
{
    let by = pixel_table::spans_factor(spot.column, spot.row);
    let mut at = Sum {
        bin: 65535,
        left: 0,
        right: 0,
        sum: 0,
        moved: 0,
    };
    for (i, pixel) in pixels.iter_mut().enumerate() {
        at = next(at, *pixel, i, corners, spot);
        *pixel = pixel_place::quotient(at.sum, spot.column, spot.row, by) as u16;
    }
    at.moved
}

// Whether a table of the bins from the least to the greatest fits the room and pays for `wide` pixels: five products a bin and one a pixel are then no more than the six a pixel of the plain rule.
#[tactic(auto, unfolding(crate::specs::Sums::pays_for))]
fn pays(ends: Ends, wide: usize, room: usize) -> bool
    requires { wide ≤ 65535 }
    ensures { result ≡ pays_for ends.low (ends.high + 1) wide room }
{
    let low = ends.low as usize;
    let top = (ends.high as usize) + 1;
    low <= top && top <= low + wide && top <= room / 2
}

// Renders a run's pixels, whose bins stand in their places: from a table of its bins where these are no more than its pixels, else pixel by pixel. Answers how many sums moved. The table is room to work in, which keeps its length.
pub fn sum_run(pixels: &mut [u16], corners: Corners, spot: Spot, table: &mut [u64]) -> usize
    requires { RunAsks spot.column spot.row corners.upper_left.now corners.upper_right.now corners.lower_left.now corners.lower_right.now (length corners.upper_left.now) pixels.old }
    ensures { (pixels.new ≡ blended_run spot.column spot.row corners.entry.upper_left.now corners.entry.upper_right.now corners.entry.lower_left.now corners.entry.lower_right.now pixels.old) × (length table.new ≡ length table.old) × (result ≡ sums_moved (length table.old) pixels.old) }
{
    let ends = ends_of(pixels);
    if !pays(ends, pixels.len(), table.len()) {
        weigh_run(pixels, corners, spot)
    } else if 524288 < spot.column.span * spot.row.span {
        pixel_table::large_run(pixels, corners, spot, ends, table)
    } else {
        pixel_table::table_run(pixels, corners, spot, ends, table)
    }
}
