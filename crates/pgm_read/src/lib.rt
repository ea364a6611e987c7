// Raw PGM: read, asked twice over the same bytes.
#![tactic(auto)]

ghost use Rattle.std.specs.Prelude.{◌≡◌, ◌+◌};
ghost use Rattle.pgm_header.specs.Told.{head_told};
ghost use Rattle.pgm_read.specs.Pgm.{read_of, sizes_of, sizes_says, raster_of, raster_start};

use base_rows::Refusal;
use pgm_header::Head;

// What read finds: width, height and maxval.
#[derive(Clone, Copy)]
pub struct Sizes {
    pub width: u32,
    pub height: u32,
    pub maxval: u32,
}

// A whole file: its header, whose numbers are judged in a file of that many bytes.
fn read(bytes: &[u8]) -> Result<Head, Refusal>
    ensures { head_told result ≡ read_of bytes.now }
{
    let head = pgm_header::header(bytes)?;
    pgm_raster::limit_refusal(head.width, head.height, head.maxval)?;
    let size = bytes.len() - head.start;
    pgm_raster::raster_refusal(head.width, head.height, head.maxval, size)?;
    Ok(head)
}

// Read, asked for the sizes and maxval.
pub fn read_sizes(bytes: &[u8]) -> Result<Sizes, Refusal>
    ensures { sizes_says result ≡ sizes_of (read_of bytes.now) }
{
    let head = read(bytes)?;
    Ok(Sizes {
        width: head.width,
        height: head.height,
        maxval: head.maxval,
    })
}

// Read, asked for the raster: the part of the bytes behind the header, and an empty part on a refusal.
pub fn read_raster(bytes: &[u8]) -> &[u8]
    ensures { (result.now ≡ raster_of (read_of bytes.now) bytes.now) × (result.ref_ptr ≡ (bytes.entry.ref_ptr.0, raster_start (read_of bytes.now) + bytes.entry.ref_ptr.1)) }
{
    match read(bytes) {
        Ok(head) => &bytes[head.start..],
        Err(_) => &bytes[..0],
    }
}
