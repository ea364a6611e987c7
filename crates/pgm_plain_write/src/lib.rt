// Plain PGM: write.
#![tactic(auto)]

ghost use Rattle.std.specs.Prelude.{◌≡◌, length};
ghost use Rattle.base_lists.specs.Lists.{onto};
ghost use Rattle.base_rows.specs.Refuse.{first};
ghost use Rattle.base_rows.specs.Given.{given, said};
ghost use Rattle.pgm_write.specs.Write.{WriteAsks, write_leaves};
ghost use Rattle.pgm_plain_write.specs.PlainWrite.{plain_file_of, plain_write_rows, plain_write_of};

use base_rows::Refusal;

// The first refusal of write. No line of a film takes more than five bytes, so that they are counted only where there is
// less room.
fn write_refusal(
    picture: &[u16],
    width: u32,
    height: u32,
    maxval: u32,
    room: usize,
) -> Result<(), Refusal>
    ensures { given result ≡ first (plain_write_rows picture.now width height maxval room) }
{
    pgm_write::picture_refusal(picture, width, height, maxval)?;
    let header = pgm_header::header_length(width, height, maxval);
    if header + 5 * picture.len() <= room {
        return Ok(());
    }
    if room < header + pgm_plain_lines::lines_length(picture) {
        return Err(Refusal::TargetShort);
    }
    Ok(())
}

// Lays the header down, and the samples straight behind it; hands back how many bytes they take.
fn lay_file(picture: &[u16], width: u32, height: u32, maxval: u32, out: &mut [u8]) -> usize
    requires { WriteAsks picture.now width height maxval (plain_file_of picture.now width height maxval) (length out.old) }
    ensures { (out.new ≡ onto out.old (plain_file_of picture.now width height maxval)) × (result ≡ length (plain_file_of picture.now width height maxval)) }
{
    let header = pgm_plain::lay_plain_head(out, width, height, maxval);
    let lines = pgm_plain_lines::lay_lines(picture, &mut out[header..]);
    header + lines
}

// Writes a picture as a plain PGM file at the front of out, and hands back how many bytes it takes; bytes behind it keep their contents.
pub fn write_plain(
    picture: &[u16],
    width: u32,
    height: u32,
    maxval: u32,
    out: &mut [u8],
) -> Result<usize, Refusal>
    ensures { write_leaves (said result) out.new ≡ plain_write_of picture.now width height maxval out.old }
{
    write_refusal(picture, width, height, maxval, out.len())?;
    Ok(lay_file(picture, width, height, maxval, out))
}
