// A plain PGM: its header read and laid down, its samples looked at and turned into greys.
#![tactic(auto)]

ghost use Rattle.std.specs.Prelude.{◌≡◌, ◌≤◌, ◌<◌, length};
ghost use Rattle.base_lists.specs.Lists.{onto};
ghost use Rattle.pgm_header.specs.Header.{header_bytes};
ghost use Rattle.pgm_header.specs.Told.{head_told};
ghost use Rattle.pgm_plain.specs.Plain.{plain_head_of, plain_head_bytes, ends_at, token_of, sample_of, scan_of, greys_from, LayAsks};
ghost use Rattle.pgm_plain.specs.Told.{sample_told, scan_told};

use base_rows::Refusal;
use pgm_header::Head;

// A sample's grey with the place behind it.
#[derive(Clone, Copy)]
pub struct Sample {
    pub grey: u32,
    pub end: usize,
}

// Whether white space stands at a place, or nothing.
#[tactic(auto, unfolding(crate::specs::Plain::ends_at))]
fn ends_at(s: &[u8], e: usize) -> bool
    ensures { result ≡ ends_at s.now e }
{
    s.len() <= e || pgm_header::is_white(s[e])
}

// The sample that starts at a place.
fn token(s: &[u8], maxval: u32, from: usize) -> Result<Sample, Refusal>
    requires { from ≤ length s.now }
    ensures { sample_told result ≡ token_of maxval s.now from }
{
    let found = pgm_header::digits(s, from);
    if found.end <= from || !ends_at(s, found.end) {
        return Err(Refusal::RasterShort);
    }
    if maxval < found.value {
        return Err(Refusal::AboveMaxval);
    }
    Ok(Sample {
        grey: found.value,
        end: found.end,
    })
}

// The next sample from a place on.
fn next_sample(s: &[u8], maxval: u32, at: usize) -> Result<Sample, Refusal>
    requires { at ≤ length s.now }
    ensures { sample_told result ≡ sample_of maxval s.now at }
{
    let from = pgm_header::white_end(s, at);
    token(s, maxval, from)
}

// Looks at `count` samples from a place on; hands back where they end.
pub fn scan_samples(s: &[u8], maxval: u32, at: usize, count: usize) -> Result<usize, Refusal>
    requires { at ≤ length s.now }
    ensures { scan_told result ≡ scan_of count maxval s.now at }
{
    let mut p = at;
    for _i in 0..count {
        let found = next_sample(s, maxval, p)?;
        p = found.end;
    }
    Ok(p)
}

// Turns `count` samples that are in order into greys at the front of target.
pub fn lay_greys(s: &[u8], maxval: u32, at: usize, count: usize, target: &mut [u16])
    requires { LayAsks count maxval s.now at (length target.old) }
    ensures { target.new ≡ onto target.old (greys_from count maxval s.now at) }
{
    let mut p = at;
    for i in 0..count {
        let from = pgm_header::white_end(s, p);
        let found = pgm_header::digits(s, from);
        target[i] = found.value as u16;
        p = found.end;
    }
}

// The header of a plain PGM file: "P2", then width, height and maxval.
pub fn plain_head(s: &[u8]) -> Result<Head, Refusal>
    ensures { head_told result ≡ plain_head_of s.now }
{
    if s.len() < 2 || s[0] != b'P' || s[1] != b'2' {
        return Err(Refusal::Header);
    }
    pgm_header::fields(s)
}

// Lays a header down at the front; hands back how many bytes it takes. Bytes behind it keep their contents.
pub fn lay_plain_head(out: &mut [u8], width: u32, height: u32, maxval: u32) -> usize
    requires { (width < 100000) × (height < 100000) × (maxval < 100000) × (length (header_bytes width height maxval) ≤ length out.old) }
    ensures { (out.new ≡ onto out.old (plain_head_bytes width height maxval)) × (result ≡ length (header_bytes width height maxval)) }
{
    let count = pgm_header::write_header(out, width, height, maxval);
    out[1] = b'2';
    count
}
