// Greys to bytes and back, one or two bytes a sample: two where WIDE. Each width has loops of its own, and no loop leaves early, so that the compiler has several samples go at once.
#![tactic(auto)]

ghost use Rattle.std.specs.Prelude.{true, false, ◌≡◌, ◌+◌, ◌*◌, ◌≤◌, length, get_or};
ghost use Rattle.base_lists.specs.Lists.{onto, over};
ghost use Rattle.pgm_samples.specs.Samples.{is_wide, sample_bytes, bytes_of, sample_at, packed, unpacked, none_above_of, UnpackAsks, PackAsks};

// Whether a sample takes two bytes: one if maxval is below 256, else two.
#[tactic(auto, unfolding(crate::specs::Samples::is_wide))]
pub fn is_wide(maxval: u32) -> bool
    ensures { result ≡ is_wide maxval }
{
    256 <= maxval
}

// Two bytes as one number, the first the low one: as a processor of the x86 line loads them.
fn word(bytes: &[u8], at: usize) -> u16
    requires { at + 2 ≤ length bytes.now }
    ensures { result ≡ get_or bytes.now at 0 + get_or bytes.now (at + 1) 0 * 256 }
{
    let first = bytes[at] as u16;
    let second = bytes[at + 1] as u16;
    first + second * 256
}

// The i-th sample of two bytes, high byte first: a word with its bytes swapped. As `word` is a function of its own, the compiler loads several words at once; from one sum it would load byte by byte.
fn pair(bytes: &[u8], i: usize) -> u16
    requires { i * 2 + 2 ≤ length bytes.now }
    ensures { result ≡ sample_at true bytes.now i }
{
    let both = word(bytes, i * 2);
    both % 256 * 256 + both / 256
}

// The i-th sample.
fn sample<const WIDE: bool>(bytes: &[u8], i: usize) -> u16
    requires { (i + 1) * sample_bytes WIDE ≤ length bytes.now }
    ensures { result ≡ sample_at WIDE bytes.now i }
{
    if WIDE {
        pair(bytes, i)
    } else {
        bytes[i] as u16
    }
}

// Turns a raster of `count` samples into greys at the front of target.
fn unpack_samples<const WIDE: bool>(bytes: &[u8], count: usize, target: &mut [u16])
    requires { UnpackAsks WIDE count (length bytes.now) (length target.old) }
    ensures { target.new ≡ onto target.old (unpacked WIDE bytes.now count) }
{
    for i in 0..count {
        target[i] = sample::<WIDE>(bytes, i);
    }
}

// Turns a raster of `count` samples into greys at the front of target; entries behind them keep their contents.
pub fn unpack(bytes: &[u8], wide: bool, count: usize, target: &mut [u16])
    requires { UnpackAsks wide count (length bytes.now) (length target.old) }
    ensures { target.new ≡ onto target.old (unpacked wide bytes.now count) }
{
    if wide {
        unpack_samples::<true>(bytes, count, target);
    } else {
        unpack_samples::<false>(bytes, count, target);
    }
}

// Whether none of a raster's samples is above maxval: the greatest of them is not. No sample is asked by itself.
fn samples_none_above<const WIDE: bool>(bytes: &[u8], count: usize, maxval: u32) -> bool
    requires { count * sample_bytes WIDE ≡ length bytes.now }
    ensures { result ≡ none_above_of maxval (unpacked WIDE bytes.now count) }
{
    let mut high = 0;
    for seen in 0..count {
        high = base_range::greatest(high, sample::<WIDE>(bytes, seen));
    }
    high as u32 <= maxval
}

// Whether none of the raster's samples is above maxval. None is looked at where no byte can be above.
pub fn none_above(bytes: &[u8], wide: bool, count: usize, maxval: u32) -> bool
    requires { count * sample_bytes wide ≡ length bytes.now }
    ensures { result ≡ none_above_of maxval (unpacked wide bytes.now count) }
{
    if wide {
        return samples_none_above::<true>(bytes, count, maxval);
    }
    if 255 <= maxval {
        return true;
    }
    samples_none_above::<false>(bytes, count, maxval)
}

// Whether none of the greys is above maxval.
pub fn greys_none_above(greys: &[u16], maxval: u32) -> bool
    ensures { result ≡ none_above_of maxval greys.now }
{
    base_range::all_within(greys, 0, maxval)
}

// Lays a grey down as the i-th sample, of two bytes with the high byte first.
fn lay<const WIDE: bool>(grey: u16, i: usize, out: &mut [u8])
    requires { (WIDE ≡ false → grey ≤ 255) × ((i + 1) * sample_bytes WIDE ≤ length out.old) }
    ensures { out.new ≡ over out.old (i * sample_bytes WIDE) (bytes_of WIDE grey) }
{
    if WIDE {
        out[i * 2] = (grey / 256) as u8;
        out[i * 2 + 1] = (grey % 256) as u8;
    } else {
        out[i] = grey as u8;
    }
}

// Lays greys down at the front of out.
fn pack_samples<const WIDE: bool>(greys: &[u16], out: &mut [u8])
    requires { (WIDE ≡ false → none_above_of 255 greys.now ≡ true) × (length greys.now * sample_bytes WIDE ≤ length out.old) }
    ensures { out.new ≡ onto out.old (packed WIDE greys.now) }
{
    for i in 0..greys.len() {
        lay::<WIDE>(greys[i], i, out);
    }
}

// Lays the greys down as a raster at the front of out; bytes behind it keep their contents.
pub fn pack(greys: &[u16], maxval: u32, out: &mut [u8])
    requires { PackAsks maxval greys.now (length out.old) }
    ensures { out.new ≡ onto out.old (packed (is_wide maxval) greys.now) }
{
    if is_wide(maxval) {
        pack_samples::<true>(greys, out);
    } else {
        pack_samples::<false>(greys, out);
    }
}
