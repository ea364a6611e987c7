// The counts of a rectangle of a picture.
#![tactic(auto)]

ghost use Rattle.std.specs.Prelude.{◌≡◌, ℕ, [], ◌∷◌, map, ◌+◌, ◌-◌, ◌*◌, ◌/◌, ◌%◌, ◌^◌, ◌≤◌, ◌<◌, length, take, drop};
ghost use Rattle.base_lists.specs.Lists.{onto, filled};
ghost use Rattle.tile_bin.specs.Binning.{factor_of};
ghost use Rattle.tile_count.specs.Tally.{greys_of, counts_of, added_of, four_at, bin_in, place_in, eight_at, CountRowAsks, FourAsks, FourAdded, BinAsks, PlacesAsks, AtAsks, LineAsks, WaysAdded, PartAsks, CountRectAsks, AddAsks, CountRowsAsks, AddUpAsks, CountWaysAsks, AddWaysAsks, Inside};

// A rectangle of a picture: a tile is one.
#[derive(Clone, Copy)]
pub struct Rect {
    pub left: usize,
    pub top: usize,
    pub width: usize,
    pub height: usize,
}

// How greys go to bins: the range, the bins, and the factor that stands for both.
#[derive(Clone, Copy)]
pub struct Binning {
    pub min: u32,
    pub max: u32,
    pub bins: u32,
    pub factor: u32,
}

// A grey as a film holds it: in 16 bits, or in a byte.
pub trait Grey: Copy {
    ghost value: { Self → ℕ };

    fn value(self) -> u16
        ensures { result ≡ value self };
}

impl Grey for u16 {
    ghost value = { λ v. v };

    fn value(self) -> u16 {
        self
    }
}

impl Grey for u8 {
    ghost value = { λ v. v };

    fn value(self) -> u16 {
        u16::from(self)
    }
}

// The part of a picture that is row y of a rectangle.
pub fn row_at<T>(picture: &[T], stride: usize, rect: Rect, y: usize) -> &[T]
    requires { Inside (length picture.now) stride rect × (y < rect.height) }
    ensures { result.now ≡ take rect.width (drop ((rect.top + y) * stride + rect.left) picture.now) }
{
    let from = (rect.top + y) * stride + rect.left;
    let to = from + rect.width;
    &picture[from..to]
}

// Adds one grey to the counts.
fn count_one(grey: u16, by: Binning, counts: &mut [u32])
    requires { CountRowAsks (grey ∷ []) by.min by.max by.bins by.factor counts.old }
    ensures { counts.new ≡ added_of by.min by.max by.bins counts.old (grey ∷ []) }
{
    let k = tile_bin::bin_by(grey as u32, by.min, by.factor) as usize;
    counts[k] += 1;
}

// Adds the greys of one row to the counts.
pub fn count_row(row: &[u16], by: Binning, counts: &mut [u32])
    requires { CountRowAsks row.now by.min by.max by.bins by.factor counts.old }
    ensures { counts.new ≡ added_of by.min by.max by.bins counts.old row.now }
{
    for grey in row {
        count_one(*grey, by, counts);
    }
}

// Adds the greys of a rectangle to the counts, row by row.
pub fn count_plain(picture: &[u16], stride: usize, rect: Rect, by: Binning, counts: &mut [u32])
    requires { AddAsks picture.now stride rect by.min by.max by.bins by.factor counts.old }
    ensures { counts.new ≡ added_of by.min by.max by.bins counts.old (greys_of picture.now stride rect) }
{
    for y in 0..rect.height {
        count_row(row_at(picture, stride, rect, y), by, counts);
    }
}

// Adds the greys of a row to four counts, four neighbours at a time and one to each, but for what is left over at its end: a count that grows need not wait for the pixel before it, which grew another. All four are read before the first is counted, so that they are read at once.
fn count_four(row: &[u16], by: Binning, a: &mut [u32], b: &mut [u32], c: &mut [u32], d: &mut [u32])
    requires { FourAsks row.now by.min by.max by.bins by.factor a.old b.old c.old d.old }
    ensures { FourAdded (take (length row.now / 4 * 4) row.now) by.min by.max by.bins a.old b.old c.old d.old a.new b.new c.new d.new }
{
    for four in row.chunks_exact(4) {
        let s = four[0];
        let t = four[1];
        let u = four[2];
        let v = four[3];
        count_one(s, by, a);
        count_one(t, by, b);
        count_one(u, by, c);
        count_one(v, by, d);
    }
}

// Adds the greys of one row to four counts: each fourth grey to each of them, and what is left over to the first.
fn count_quarters(
    row: &[u16],
    by: Binning,
    a: &mut [u32],
    b: &mut [u32],
    c: &mut [u32],
    d: &mut [u32],
)
    requires { FourAsks row.now by.min by.max by.bins by.factor a.old b.old c.old d.old }
    ensures { FourAdded row.now by.min by.max by.bins a.old b.old c.old d.old a.new b.new c.new d.new }
{
    let t = row.len() / 4 * 4;
    count_four(row, by, a, b, c, d);
    count_row(&row[t..], by, a);
}

// Adds the greys of a rectangle to four counts, row by row.
fn count_rows(
    picture: &[u16],
    stride: usize,
    rect: Rect,
    by: Binning,
    a: &mut [u32],
    b: &mut [u32],
    c: &mut [u32],
    d: &mut [u32],
)
    requires { CountRowsAsks picture.now stride rect by.min by.max by.bins by.factor a.old b.old c.old d.old }
    ensures { FourAdded (greys_of picture.now stride rect) by.min by.max by.bins a.old b.old c.old d.old a.new b.new c.new d.new }
{
    for y in 0..rect.height {
        count_quarters(row_at(picture, stride, rect, y), by, a, b, c, d);
    }
}

// Lays down the sums of four counts.
fn add_up(a: &[u32], b: &[u32], c: &[u32], d: &[u32], bins: usize, counts: &mut [u32])
    requires { AddUpAsks a.now b.now c.now d.now bins (length counts.old) }
    ensures { counts.new ≡ filled (four_at a.now b.now c.now d.now) counts.old bins }
{
    for k in 0..bins {
        counts[k] = a[k] + b[k] + c[k] + d[k];
    }
}

// The counts of a rectangle: four counts of N entries, which are added up at the end. N is 16 more than the bins at least, so that a bin's own four never lie a page apart: a processor takes those for the same at first.
fn count_four_in<const N: usize>(
    picture: &[u16],
    stride: usize,
    rect: Rect,
    by: Binning,
    counts: &mut [u32],
)
    requires { CountRectAsks picture.now stride rect by.min by.max by.bins (length counts.old) × (by.factor ≡ factor_of by.min by.max by.bins) × (by.bins + 16 ≤ N) × (N ≤ 4112) }
    ensures { counts.new ≡ onto counts.old (counts_of by.min by.max by.bins (greys_of picture.now stride rect)) }
{
    let mut a = [0u32; N];
    let mut b = [0u32; N];
    let mut c = [0u32; N];
    let mut d = [0u32; N];
    count_rows(picture, stride, rect, by, &mut a, &mut b, &mut c, &mut d);
    add_up(&a, &b, &c, &d, by.bins as usize, counts);
}

// The shift that gives a grey's bin, where one does: the factor is then 2^(24 - shift) + 1, and each bin has 2^shift greys. Else 16.
pub fn even_shift(factor: u32) -> u16
    ensures { result < 13 → 2 ^ (24 - result) + 1 ≡ factor }
{
    let t = u32::trailing_zeros(factor ^ 1);
    if 11 < t && t < 25 && (1u32 << t) + 1 == factor {
        (24 - t) as u16
    } else {
        16
    }
}

// With at most 256 bins a table has eight counts of each bin, its ways, side by side. The place of a grey is the first of its bin's eight entries; here by such a shift. The numbers stay in 16 bits, so that most greys go at once.
pub fn place_even(grey: u16, by: Binning, shift: u16) -> u16
    requires { BinAsks by grey × (shift < 13) × (2 ^ (24 - shift) + 1 ≡ by.factor) }
    ensures { result ≡ place_in by grey }
{
    let k = (grey - by.min as u16) >> shift;
    k * 8
}

// The same by the factor.
pub fn place_by(grey: u32, by: Binning) -> u16
    requires { BinAsks by grey }
    ensures { result ≡ place_in by grey }
{
    let k = tile_bin::bin_by(grey, by.min, by.factor) as u16;
    k * 8
}

// Lays the places of a row's greys into a line, where a shift gives them.
fn places_even<T: Grey>(row: &[T], by: Binning, shift: u16, line: &mut [u16])
    requires { PlacesAsks (map T.value row.now) by (length line.old) × (shift < 13) × (2 ^ (24 - shift) + 1 ≡ by.factor) }
    ensures { line.new ≡ onto line.old (map (place_in by) (map T.value row.now)) }
{
    for (x, grey) in row.iter().enumerate() {
        line[x] = place_even(grey.value(), by, shift);
    }
}

// The same by the factor.
fn places_by<T: Grey>(row: &[T], by: Binning, line: &mut [u16])
    requires { PlacesAsks (map T.value row.now) by (length line.old) }
    ensures { line.new ≡ onto line.old (map (place_in by) (map T.value row.now)) }
{
    for (x, grey) in row.iter().enumerate() {
        line[x] = place_by(grey.value() as u32, by);
    }
}

// Lays the places of a row's greys into a line: by a shift, or by the factor.
fn places<T: Grey>(row: &[T], by: Binning, line: &mut [u16])
    requires { PlacesAsks (map T.value row.now) by (length line.old) }
    ensures { line.new ≡ onto line.old (map (place_in by) (map T.value row.now)) }
{
    let shift = even_shift(by.factor);
    if shift < 13 {
        places_even(row, by, shift, line);
    } else {
        places_by(row, by, line);
    }
}

// Adds one to a count: the way's of those that begin at the place.
fn count_at(place: usize, way: usize, table: &mut [u32])
    requires { AtAsks place way table.old }
    ensures { WaysAdded (place / 8 ∷ []) table.old table.new }
{
    let k = place + way;
    table[k] += 1;
}

// Adds up to eight neighbours, each to a way of its own: they mostly lie in one bin, and a count that grows need not wait for its neighbour's.
fn count_turn(line: &[u16], table: &mut [u32])
    requires { LineAsks line.now table.old × (length line.now ≤ 8) }
    ensures { WaysAdded (map (λ p. p / 8) line.now) table.old table.new }
{
    for (way, place) in line.iter().enumerate() {
        count_at(*place as usize, way, table);
    }
}

// Adds the places of a line, eight neighbours at a time, but for what is left over at its end.
fn count_turns(line: &[u16], table: &mut [u32])
    requires { LineAsks line.now table.old }
    ensures { WaysAdded (map (λ p. p / 8) (take (length line.now / 8 * 8) line.now)) table.old table.new }
{
    for turn in line.chunks_exact(8) {
        count_turn(turn, table);
    }
}

// Adds the places of a line to the ways: eight neighbours at a time, and then what is left over.
pub fn count_line(line: &[u16], table: &mut [u32])
    requires { LineAsks line.now table.old }
    ensures { WaysAdded (map (λ p. p / 8) line.now) table.old table.new }
{
    let t = line.len() / 8 * 8;
    count_turns(line, table);
    count_turn(&line[t..], table);
}

// Adds the greys of a part of a row that is no longer than the line.
fn count_part<T: Grey>(row: &[T], by: Binning, line: &mut [u16], table: &mut [u32])
    requires { PartAsks (map T.value row.now) by table.old × (length row.now ≤ length line.old) }
    ensures { WaysAdded (map (bin_in by) (map T.value row.now)) table.old table.new }
{
    let wide = row.len();
    places(row, by, line);
    count_line(&line[..wide], table);
}

// Adds the greys of a row, part by part.
fn count_parts<T: Grey>(row: &[T], by: Binning, line: &mut [u16], table: &mut [u32])
    requires { PartAsks (map T.value row.now) by table.old × (0 < length line.old) }
    ensures { WaysAdded (map (bin_in by) (map T.value row.now)) table.old table.new }
{
    for part in row.chunks(line.len()) {
        count_part(part, by, line, table);
    }
}

// Adds the greys of a rectangle to the ways, row by row.
fn count_ways<T: Grey>(
    picture: &[T],
    stride: usize,
    rect: Rect,
    by: Binning,
    line: &mut [u16],
    table: &mut [u32],
)
    requires { CountWaysAsks (map T.value picture.now) stride rect by table.old × (0 < length line.old) }
    ensures { WaysAdded (map (bin_in by) (greys_of (map T.value picture.now) stride rect)) table.old table.new }
{
    for y in 0..rect.height {
        count_parts(row_at(picture, stride, rect, y), by, line, table);
    }
}

// A bin's counts in all ways.
fn eight_sum(table: &[u32], k: usize) -> u32
    requires { AddWaysAsks (k + 1) table.now }
    ensures { result ≡ eight_at table.now k }
{
    let mut sum = 0;
    for j in 0..8 {
        sum += table[k * 8 + j];
    }
    sum
}

// Lays down the sums of the ways.
pub fn add_ways(table: &[u32], bins: usize, counts: &mut [u32])
    requires { AddWaysAsks bins table.now × (bins ≤ length counts.old) }
    ensures { counts.new ≡ filled (eight_at table.now) counts.old bins }
{
    for k in 0..bins {
        counts[k] = eight_sum(table, k);
    }
}

// The counts of a rectangle, for at most 256 bins: by eight ways, which are added up at the end.
pub fn count_eight_ways<T: Grey>(
    picture: &[T],
    stride: usize,
    rect: Rect,
    by: Binning,
    counts: &mut [u32],
)
    requires { CountRectAsks (map T.value picture.now) stride rect by.min by.max by.bins (length counts.old) × (by.factor ≡ factor_of by.min by.max by.bins) × (by.bins ≤ 256) }
    ensures { counts.new ≡ onto counts.old (counts_of by.min by.max by.bins (greys_of (map T.value picture.now) stride rect)) }
{
    let mut line = [0u16; 512];
    let mut table = [0u32; 2048];
    count_ways(picture, stride, rect, by, &mut line, &mut table);
    add_ways(&table, by.bins as usize, counts);
}

// The counts of a rectangle of a picture `stride` pixels wide, in the first `bins` entries; entries behind keep their contents. Where a bin has fewer than four pixels, four counts cost more to clear and to add up than they gain; the larger the four, the longer they take to clear, so there are two sizes.
pub fn count(
    picture: &[u16],
    stride: usize,
    rect: Rect,
    min: u32,
    max: u32,
    bins: u32,
    counts: &mut [u32],
)
    requires { CountRectAsks picture.now stride rect min max bins (length counts.old) }
    ensures { counts.new ≡ onto counts.old (counts_of min max bins (greys_of picture.now stride rect)) }
{
    let factor = tile_bin::bin_factor(min, max, bins);
    let by = Binning {
        min,
        max,
        bins,
        factor,
    };
    if bins <= 256 {
        count_eight_ways(picture, stride, rect, by, counts);
    } else if rect.width * rect.height / 4 < bins as usize {
        base_lists::clear(counts, bins as usize);
        count_plain(picture, stride, rect, by, counts);
    } else if bins <= 1024 {
        count_four_in::<1040>(picture, stride, rect, by, counts);
    } else {
        count_four_in::<4112>(picture, stride, rect, by, counts);
    }
}
