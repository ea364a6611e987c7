// Raw PGM: write.
#![tactic(auto)]

ghost use Rattle.std.specs.Prelude.{◌≡◌, length};
ghost use Rattle.base_lists.specs.Lists.{onto};
ghost use Rattle.base_rows.specs.Refuse.{first};
ghost use Rattle.base_rows.specs.Given.{given, said};
ghost use Rattle.pgm_write.specs.Write.{file_of, file_picture_rows, write_rows, WriteAsks, write_leaves, write_of};

use base_rows::Refusal;

// The first refusal of a picture that is to be written, whatever its file's form.
pub fn picture_refusal(picture: &[u16], width: u32, height: u32, maxval: u32) -> Result<(), Refusal>
    ensures { given result ≡ first (file_picture_rows picture.now width height maxval) }
{
    pgm_raster::limit_refusal(width, height, maxval)?;
    if picture.len() != (width as usize) * (height as usize) {
        return Err(Refusal::PictureLength);
    }
    if !pgm_samples::greys_none_above(picture, maxval) {
        return Err(Refusal::AboveMaxval);
    }
    Ok(())
}

// The first refusal of write.
fn write_refusal(
    picture: &[u16],
    width: u32,
    height: u32,
    maxval: u32,
    room: usize,
) -> Result<(), Refusal>
    ensures { given result ≡ first (write_rows picture.now width height maxval room) }
{
    picture_refusal(picture, width, height, maxval)?;
    let header = pgm_header::header_length(width, height, maxval);
    if room < header + pgm_raster::raster_size(width, height, maxval) {
        return Err(Refusal::TargetShort);
    }
    Ok(())
}

// Lays the header down, and the raster straight behind it; hands back how many bytes they take.
fn lay_file(picture: &[u16], width: u32, height: u32, maxval: u32, out: &mut [u8]) -> usize
    requires { WriteAsks picture.now width height maxval (file_of picture.now width height maxval) (length out.old) }
    ensures { (out.new ≡ onto out.old (file_of picture.now width height maxval)) × (result ≡ length (file_of picture.now width height maxval)) }
{
    let header = pgm_header::write_header(out, width, height, maxval);
    pgm_samples::pack(picture, maxval, &mut out[header..]);
    header + pgm_raster::raster_size(width, height, maxval)
}

// Writes a picture as a raw PGM file at the front of out, and hands back how many bytes it takes; bytes behind it keep their contents.
pub fn write(
    picture: &[u16],
    width: u32,
    height: u32,
    maxval: u32,
    out: &mut [u8],
) -> Result<usize, Refusal>
    ensures { write_leaves (said result) out.new ≡ write_of picture.now width height maxval out.old }
{
    write_refusal(picture, width, height, maxval, out.len())?;
    Ok(lay_file(picture, width, height, maxval, out))
}
