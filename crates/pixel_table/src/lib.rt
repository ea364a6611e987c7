// The weighted sum of each bin at the left tiles' centre and what it moves by: a run's pixels from these alone.
#![tactic(auto)]

ghost use Rattle.std.specs.Prelude.{◌≡◌, ℕ, ◌+◌, ◌*◌, ◌/◌, ◌≤◌, ◌<◌, length};
ghost use Rattle.pixel_place.specs.Blend.{Sound, inverse_of, Inverse};
ghost use Rattle.pixel_table.specs.Table.{patch_of, blended_run, entry_of, sum_at, moved_by, moved_run, Tiles, Scaled, Moves, MoveAsks, SumsCan, RunAsks, Within};

use pixel_place::Place;

// A pixel's places among the tile columns and the tile rows.
#[derive(Clone, Copy)]
pub struct Spot {
    pub column: Place,
    pub row: Place,
}

// The mapped values of the bins, of each of the four tiles that a pixel lies between.
#[derive(Clone, Copy)]
pub struct Corners<'a> {
    pub upper_left: &'a [u16],
    pub upper_right: &'a [u16],
    pub lower_left: &'a [u16],
    pub lower_right: &'a [u16],
}

// The least and the greatest of some bins.
#[derive(Clone, Copy)]
pub struct Ends {
    pub low: u16,
    pub high: u16,
}

// A bin's pair on one side, times the factor, which the row's weights have in them already.
fn side(upper: u64, lower: u64, above: u16, below: u16) -> u64
    requires { upper * above + lower * below < 4611686018427387904 }
    ensures { result ≡ upper * above + lower * below }
{
    upper * (above as u64) + lower * (below as u64)
}

// Fills the table for the bins from the least to the greatest: five products each.
fn fill(corners: Corners, spot: Spot, by: u64, ends: Ends, table: &mut [u64])
    requires { Scaled by spot.column spot.row × Tiles corners.upper_left.now corners.upper_right.now corners.lower_left.now corners.lower_right.now (length corners.upper_left.now) × (ends.low ≤ ends.high + 1) × (ends.high + 1 ≤ length corners.upper_left.now) × (length corners.upper_left.now ≤ 4096) × (2 * (ends.high + 1) ≤ length table.old) }
    ensures { table.new ≡ patch_of (entry_of by spot.column spot.row corners.entry.upper_left.now corners.entry.upper_right.now corners.entry.lower_left.now corners.entry.lower_right.now) table.old (2 * ends.low) (2 * (ends.high + 1)) }
{
    let span = spot.column.span as u64;
    let upper = (spot.row.lowerweight as u64) * by;
    let lower = (spot.row.upperweight as u64) * by;
    let most = (spot.row.span as u64) * 4095 * by;
    let low = ends.low as usize;
    let top = (ends.high as usize) + 1;
    for k in low..top {
        let left = side(upper, lower, corners.upper_left[k], corners.lower_left[k]);
        let right = side(upper, lower, corners.upper_right[k], corners.lower_right[k]);
        table[2 * k] = span * left;
        table[2 * k + 1] = right + most - left;
    }
}

// The weighted sum of a pixel of bin k, x columns from the centre, times the factor: one product moves it.
fn moved(table: &[u64], most: u64, x: u64, k: u16) -> u64
    requires { Moves table.now most x k }
    ensures { result ≡ sum_at table.now most x k }
{
    let n = 2 * (k as usize);
    table[n] + x * table[n + 1] - x * most
}

// How a pixel's grey comes from its sum in the table: as a quotient.
trait Divide {
    // The number that it divides by.
    ghost by: { Self → ℕ };

    // Which sums it can divide.
    ghost can: { Self → ℕ → Type 0 };

    // The grey of a sum.
    fn grey(&self, sum: u64) -> u16
        requires { can self.now sum }
        ensures { result ≡ sum / by self.now };
}

// Divides the sums of a table whose factor is one of 2^50: a shift does it.
#[derive(Clone, Copy)]
struct Shift;

impl Divide for Shift {
    ghost by = { λ _. 1125899906842624 };

    ghost can = { λ _ _. Unit {0} };

    fn grey(&self, sum: u64) -> u16 {
        (sum / 1125899906842624) as u16
    }
}

// Divides the sums of a table with no factor by the product of both spans, as `pixel_place` does.
#[derive(Clone, Copy)]
struct Quotient {
    spot: Spot,
    factor: u64,
}

impl Divide for Quotient {
    ghost by = { λ d. d.spot.column.span * d.spot.row.span };

    ghost can = { λ d sum. Sound 16 2048 d.spot.column × Sound 16 2048 d.spot.row × Inverse (d.spot.column.span * d.spot.row.span) d.factor × (sum ≤ d.spot.column.span * d.spot.row.span * 4095) };

    fn grey(&self, sum: u64) -> u16 {
        pixel_place::quotient(sum, self.spot.column, self.spot.row, self.factor) as u16
    }
}

// What stands for the division by the product of both spans.
pub fn spans_factor(column: Place, row: Place) -> u64
    requires { Sound 16 2048 column × Sound 16 2048 row }
    ensures { (result ≡ inverse_of (column.span * row.span)) × Inverse (column.span * row.span) result }
{
    pixel_place::factor((column.span as u64) * (row.span as u64))
}

// Renders the pixels from `at` up to `end`, whose bins stand in their places, from the table alone.
fn move_part<D: Divide>(
    pixels: &mut [u16],
    at: usize,
    end: usize,
    table: &[u64],
    from: usize,
    most: u64,
    divide: &D,
)
    requires { MoveAsks table.now from most at end pixels.old × SumsCan (D.can divide.now) table.now from most at end pixels.old }
    ensures { pixels.new ≡ patch_of (moved_by (D.by divide.now) table.now from most) pixels.old at end }
{
    for i in at..end {
        let x = (from + i) as u64;
        pixels[i] = divide.grey(moved(table, most, x, pixels[i]));
    }
}

// The same for four pixels: all four are read before one is written, so that none waits for another.
fn move_four<D: Divide>(
    pixels: &mut [u16],
    at: usize,
    table: &[u64],
    from: usize,
    most: u64,
    divide: &D,
)
    requires { MoveAsks table.now from most at (at + 4) pixels.old × SumsCan (D.can divide.now) table.now from most at (at + 4) pixels.old }
    ensures { pixels.new ≡ patch_of (moved_by (D.by divide.now) table.now from most) pixels.old at (at + 4) }
{
    let x = (from + at) as u64;
    let e = divide.grey(moved(table, most, x, pixels[at]));
    let f = divide.grey(moved(table, most, x + 1, pixels[at + 1]));
    let g = divide.grey(moved(table, most, x + 2, pixels[at + 2]));
    let h = divide.grey(moved(table, most, x + 3, pixels[at + 3]));
    pixels[at] = e;
    pixels[at + 1] = f;
    pixels[at + 2] = g;
    pixels[at + 3] = h;
}

// Renders a run's pixels, whose bins stand in their places, from the table alone: four at a time, and the rest one by one. Answers how many moved.
fn move_run<D: Divide>(
    pixels: &mut [u16],
    table: &[u64],
    from: usize,
    most: u64,
    divide: &D,
) -> usize
    requires { MoveAsks table.now from most 0 (length pixels.old) pixels.old × SumsCan (D.can divide.now) table.now from most 0 (length pixels.old) pixels.old }
    ensures { (pixels.new ≡ moved_run (D.by divide.now) table.now from most pixels.old) × (result ≡ length pixels.old) }
{
    let len = pixels.len();
    let many = len / 4;
    for n in 0..many {
        move_four(pixels, n * 4, table, from, most, divide);
    }
    move_part(pixels, many * 4, len, table, from, most, divide);
    len
}

// Renders a run's pixels from the table of its bins, which is filled first, where the spans are small enough for a factor of 2^50. Answers how many moved.
pub fn table_run(
    pixels: &mut [u16],
    corners: Corners,
    spot: Spot,
    ends: Ends,
    table: &mut [u64],
) -> usize
    requires { RunAsks spot.column spot.row corners.upper_left.now corners.upper_right.now corners.lower_left.now corners.lower_right.now (length corners.upper_left.now) pixels.old × (spot.column.span * spot.row.span ≤ 524288) × Within ends.low (ends.high + 1) (length corners.upper_left.now) (length table.old) pixels.old }
    ensures { (pixels.new ≡ blended_run spot.column spot.row corners.entry.upper_left.now corners.entry.upper_right.now corners.entry.lower_left.now corners.entry.lower_right.now pixels.old) × (length table.new ≡ length table.old) × (result ≡ length pixels.old) }
{
    let by = 1125899906842624 / ((spot.column.span as u64) * (spot.row.span as u64)) + 1;
    fill(corners, spot, by, ends, table);
    let most = (spot.row.span as u64) * 4095 * by;
    let from = spot.column.upperweight as usize;
    move_run(pixels, table, from, most, &Shift)
}

// The same for spans of any size: no factor stands in the table.
pub fn large_run(
    pixels: &mut [u16],
    corners: Corners,
    spot: Spot,
    ends: Ends,
    table: &mut [u64],
) -> usize
    requires { RunAsks spot.column spot.row corners.upper_left.now corners.upper_right.now corners.lower_left.now corners.lower_right.now (length corners.upper_left.now) pixels.old × Within ends.low (ends.high + 1) (length corners.upper_left.now) (length table.old) pixels.old }
    ensures { (pixels.new ≡ blended_run spot.column spot.row corners.entry.upper_left.now corners.entry.upper_right.now corners.entry.lower_left.now corners.entry.lower_right.now pixels.old) × (length table.new ≡ length table.old) × (result ≡ length pixels.old) }
{
    fill(corners, spot, 1, ends, table);
    let most = (spot.row.span as u64) * 4095;
    let from = spot.column.upperweight as usize;
    let divide = Quotient {
        spot,
        factor: spans_factor(spot.column, spot.row),
    };
    move_run(pixels, table, from, most, &divide)
}
