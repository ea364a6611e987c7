// Where a column or a row stands between two tile centres, and the grey of a pixel from four mapped values.
#![tactic(auto)]

ghost use Rattle.std.specs.Prelude.{◌≡◌, ◌+◌, ◌*◌, ◌/◌, ◌≤◌, ◌<◌};
ghost use Rattle.pixel_grid.specs.Grid.{centre_of, Fits};
ghost use Rattle.pixel_place.specs.Blend.{alone, between, place_of, weighed_of, grey_of, pair_of, sides_of, Sound, inverse_of, Inverse, SameTiles, length_of};

// A column's or a row's place: the tiles below and above it, the weight of each, and the span that the weights add up to.
#[derive(Clone, Copy)]
pub struct Place {
    pub lower: u32,
    pub upper: u32,
    pub lowerweight: u32,
    pub upperweight: u32,
    pub span: u32,
}

// Tile k used alone.
fn single(side: u32, grid: u32, k: u32) -> Place
    requires { Fits side grid × (k < grid) }
    ensures { result ≡ alone side grid k }
{
    let size = pixel_grid::size(side, grid, k);
    Place {
        lower: k,
        upper: k,
        lowerweight: size,
        upperweight: 0,
        span: size,
    }
}

// The tiles k and k + 1, x between their centres.
fn pair_of(side: u32, grid: u32, x: u32, k: u32) -> Place
    requires { Fits side grid × (k + 1 < grid) × (centre_of side grid k ≤ x) × (x < centre_of side grid (k + 1)) }
    ensures { result ≡ between side grid x k }
{
    let from = pixel_grid::centre(side, grid, k);
    let to = pixel_grid::centre(side, grid, k + 1);
    Place {
        lower: k,
        upper: k + 1,
        lowerweight: to - x,
        upperweight: x - from,
        span: to - from,
    }
}

// The place of column (or row) x of a film `side` wide (or high) in `grid` tiles: t is the tile that it lies in.
pub fn locate(side: u32, grid: u32, x: u32) -> Place
    requires { Fits side grid × (x < side) }
    ensures { result ≡ place_of side grid x }
{
    let t = ((x + 1) * grid - 1) / side;
    if x < pixel_grid::centre(side, grid, t) {
        if t == 0 {
            single(side, grid, 0)
        } else {
            pair_of(side, grid, x, t - 1)
        }
    } else if t + 1 == grid {
        single(side, grid, t)
    } else {
        pair_of(side, grid, x, t)
    }
}

// How many columns (or rows) from x on lie between the tiles of x, whose place this is: 1 at least, and no more than the lower weight.
pub fn run(place: Place, side: u32, grid: u32, x: u32) -> u32
    requires { Fits side grid × (x < side) × (place ≡ place_of side grid x) }
    ensures { (result ≡ length_of side grid x place) × SameTiles side grid x place result }
{
    if place.lower < place.upper {
        place.lowerweight
    } else if place.lower + 1 == grid {
        side - x
    } else {
        pixel_grid::centre(side, grid, 0) - x
    }
}

// The four mapped values of a pixel's bin, each by its weight, added up.
fn weigh(column: Place, row: Place, a: u32, b: u32, c: u32, d: u32) -> u64
    requires { Sound 16 2048 column × Sound 16 2048 row × (a ≤ 4095) × (b ≤ 4095) × (c ≤ 4095) × (d ≤ 4095) }
    ensures { result ≡ weighed_of column row a b c d }
{
    let upper = (column.lowerweight as u64) * (a as u64) + (column.upperweight as u64) * (b as u64);
    let lower = (column.lowerweight as u64) * (c as u64) + (column.upperweight as u64) * (d as u64);
    (row.lowerweight as u64) * upper + (row.upperweight as u64) * lower
}

// The factor that stands for a division by the product of two spans; 0 for spans so large that a product with it could leave 64 bits.
pub fn factor(spans: u64) -> u64
    requires { 0 < spans }
    ensures { (result ≡ inverse_of spans) × Inverse spans result }
{
    if 1048576 < spans {
        0
    } else {
        4503599627370496 / spans + 1
    }
}

// The grey of a weighted sum, by the factor of the spans: a product and a shift in place of the division.
pub fn quotient(sum: u64, column: Place, row: Place, factor: u64) -> u32
    requires { Sound 16 2048 column × Sound 16 2048 row × Inverse (column.span * row.span) factor × (sum ≤ column.span * row.span * 4095) }
    ensures { result ≡ sum / (column.span * row.span) }
{
    if factor == 0 {
        (sum / ((column.span as u64) * (row.span as u64))) as u32
    } else {
        (sum * factor / 4503599627370496) as u32
    }
}

// The grey of a pixel, by the factor of its spans.
pub fn grey_by(column: Place, row: Place, factor: u64, a: u32, b: u32, c: u32, d: u32) -> u32
    requires { Sound 16 2048 column × Sound 16 2048 row × Inverse (column.span * row.span) factor × (a ≤ 4095) × (b ≤ 4095) × (c ≤ 4095) × (d ≤ 4095) }
    ensures { result ≡ grey_of column row a b c d }
{
    quotient(weigh(column, row, a, b, c, d), column, row, factor)
}

// The weighted sum of a pixel from the row's pairs of the tiles on its left and on its right. One column on it is this sum, and the right pair more, and the left pair less.
pub fn sides(column: Place, left: u32, right: u32) -> u64
    requires { Sound 16 2048 column × (left ≤ 2048 * 4095) × (right ≤ 2048 * 4095) }
    ensures { result ≡ pair_of column left right }
{
    (column.lowerweight as u64) * (left as u64) + (column.upperweight as u64) * (right as u64)
}
