// The text of the listing program.
#![tactic(auto)]

ghost use Rattle.std.specs.Prelude.{◌≡◌, ◌*◌, ◌≤◌, length};
ghost use Rattle.base_lists.specs.Lists.{onto};
ghost use Rattle.base_rows.specs.Given.{said};
ghost use Rattle.pgm_header.specs.Header.{header_of};
ghost use Rattle.pgm_samples.specs.Samples.{is_wide, unpacked};
ghost use Rattle.pgm_write.specs.Write.{write_leaves};
ghost use Rattle.listing_line.specs.Asks.{Told};
ghost use Rattle.listing_file.specs.Listing.{is_larger_of, picture_text, listing_of, list_of, laid_of};
ghost use Rattle.listing_file.specs.Asks.{ListRasterAsks};

use base_rows::Refusal;

// Whether the film that a header speaks of has more than 8,192 pixels.
fn is_larger(bytes: &[u8]) -> bool
    ensures { result ≡ is_larger_of (header_of bytes.now) }
{
    match pgm_header::header(bytes) {
        Ok(head) => 8192 < (head.width as u64) * (head.height as u64),
        Err(_) => false,
    }
}

// The listing of a raster that read handed back, or the refusal of its film.
fn list_raster(raster: &[u8], width: u32, height: u32, maxval: u32, out: &mut [u8]) -> usize
    requires { ListRasterAsks raster.now width height maxval (length out.old) }
    ensures { Told out.old (picture_text width height maxval (unpacked (is_wide maxval) raster.now (width * height))) out.new result }
{
    let mut film = [0u16; 8192];
    match pgm_greys::read_greys(raster, 0, width, height, maxval, &mut film) {
        Ok(()) => {
            let count = (width * height) as usize;
            listing_film::list_film(&film[..count], width, height, maxval, out)
        }
        Err(r) => listing_line::refused_line(out, r.number()),
    }
}

// Lays the text that the listing program prints for a file's bytes down at the front of out; hands back its length.
fn lay_text(bytes: &[u8], out: &mut [u8]) -> usize
    requires { 512 ≤ length out.old }
    ensures { (out.new ≡ onto out.old (listing_of bytes.now)) × (result ≡ length (listing_of bytes.now)) }
{
    if 32768 < bytes.len() {
        return listing_line::refused_line(out, 22);
    }
    if is_larger(bytes) {
        return listing_line::refused_line(out, 22);
    }
    match pgm_read::read_sizes(bytes) {
        Ok(sizes) => list_raster(
            pgm_read::read_raster(bytes),
            sizes.width,
            sizes.height,
            sizes.maxval,
            out,
        ),
        Err(r) => listing_line::refused_line(out, r.number()),
    }
}

// The text that the listing program prints for a file's bytes, at the front of out: its length, or 27 where fewer than 512 bytes are lent.
pub fn list(bytes: &[u8], out: &mut [u8]) -> Result<usize, Refusal>
    ensures { write_leaves (said result) out.new ≡ list_of bytes.now out.old }
{
    if out.len() < 512 {
        return Err(Refusal::TargetShort);
    }
    Ok(lay_text(bytes, out))
}

// How many bytes `list` laid down, by its answer.
pub fn laid(answer: Result<usize, Refusal>) -> usize
    ensures { result ≡ laid_of (said answer) }
{
    answer.unwrap_or(0)
}
