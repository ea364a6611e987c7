// Plain PGM: read, asked for the sizes alone or for the film.
#![tactic(auto)]

ghost use Rattle.std.specs.Prelude.{◌≡◌, ◌≤◌, length};
ghost use Rattle.base_rows.specs.Refuse.{first};
ghost use Rattle.base_rows.specs.Given.{given};
ghost use Rattle.pgm_read.specs.Pgm.{sizes_says};
ghost use Rattle.pgm_plain.specs.Scan.{Done};
ghost use Rattle.pgm_plain.specs.Plain.{plain_head_of, scan_of};
ghost use Rattle.pgm_plain_read.specs.PlainRead.{sample_rows, plain_rows, plain_read_as, samples_of, plain_of, limited_of};

use base_rows::Refusal;
use pgm_read::Sizes;

// Refusal 25, where a byte behind the last sample is no white space.
#[tactic(auto, using(crate::proofs::Tables::tail_other, crate::proofs::Tables::tail_white))]
fn tail_refusal(bytes: &[u8], end: usize) -> Result<(), Refusal>
    requires { end ≤ length bytes.now }
    ensures { given result ≡ first (sample_rows (Done end) bytes.now) }
{
    let behind = pgm_header::white_end(bytes, end);
    if behind != bytes.len() {
        return Err(Refusal::RasterLong);
    }
    Ok(())
}

// The first of the refusals 24 and 26 that a sample meets, then 25.
fn sample_refusal(bytes: &[u8], maxval: u32, at: usize, count: usize) -> Result<(), Refusal>
    requires { at ≤ length bytes.now }
    ensures { given result ≡ first (sample_rows (scan_of count maxval bytes.now at) bytes.now) }
{
    let end = pgm_plain::scan_samples(bytes, maxval, at, count)?;
    tail_refusal(bytes, end)
}

// The first refusal behind the header.
fn plain_refusal(
    bytes: &[u8],
    width: u32,
    height: u32,
    maxval: u32,
    at: usize,
    room: usize,
) -> Result<(), Refusal>
    requires { at ≤ length bytes.now }
    ensures { given result ≡ first (plain_rows bytes.now width height maxval at room) }
{
    pgm_raster::limit_refusal(width, height, maxval)?;
    let count = (width as usize) * (height as usize);
    if room < count {
        return Err(Refusal::TargetShort);
    }
    sample_refusal(bytes, maxval, at, count)
}

// A film whose header was found: refused before the target is written, or its greys at the target's front.
fn lay_film(
    bytes: &[u8],
    width: u32,
    height: u32,
    maxval: u32,
    at: usize,
    target: &mut [u16],
) -> Result<Sizes, Refusal>
    requires { at ≤ length bytes.now }
    ensures { plain_read_as (sizes_says result) target.new ≡ samples_of bytes.now width height maxval at target.old }
{
    plain_refusal(bytes, width, height, maxval, at, target.len())?;
    let count = (width as usize) * (height as usize);
    pgm_plain::lay_greys(bytes, maxval, at, count, target);
    Ok(Sizes {
        width,
        height,
        maxval,
    })
}

// Reads a plain PGM file into target; entries behind the last grey keep their contents.
pub fn read_plain(bytes: &[u8], target: &mut [u16]) -> Result<Sizes, Refusal>
    ensures { plain_read_as (sizes_says result) target.new ≡ plain_of bytes.now target.old }
{
    let head = pgm_plain::plain_head(bytes)?;
    lay_film(
        bytes,
        head.width,
        head.height,
        head.maxval,
        head.start,
        target,
    )
}

// Its sizes and maxval alone: how much to lend.
pub fn plain_sizes(bytes: &[u8]) -> Result<Sizes, Refusal>
    ensures { sizes_says result ≡ limited_of (plain_head_of bytes.now) }
{
    let head = pgm_plain::plain_head(bytes)?;
    pgm_raster::limit_refusal(head.width, head.height, head.maxval)?;
    Ok(Sizes {
        width: head.width,
        height: head.height,
        maxval: head.maxval,
    })
}
