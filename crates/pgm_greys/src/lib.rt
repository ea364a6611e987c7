// Raw PGM: a raster turned into greys.
#![tactic(auto)]

ghost use Rattle.std.specs.Prelude.{◌≡◌, ◌*◌, length, drop};
ghost use Rattle.base_lists.specs.Lists.{onto};
ghost use Rattle.base_rows.specs.Refuse.{first};
ghost use Rattle.base_rows.specs.Given.{given, said};
ghost use Rattle.pgm_samples.specs.Samples.{is_wide, unpacked};
ghost use Rattle.pgm_raster.specs.Raster.{RasterAsks};
ghost use Rattle.pgm_greys.specs.Greys.{target_rows, turn_rows, GreyAsks, greys_leave, turned_of};

use base_rows::Refusal;

// The first of the refusals 27 and 26 that applies.
fn target_refusal(
    bytes: &[u8],
    start: usize,
    width: u32,
    height: u32,
    maxval: u32,
    room: usize,
) -> Result<(), Refusal>
    requires { RasterAsks bytes.now start width height maxval }
    ensures { given result ≡ first (target_rows bytes.now start width height maxval room) }
{
    let count = (width as usize) * (height as usize);
    if room < count {
        return Err(Refusal::TargetShort);
    }
    let wide = pgm_samples::is_wide(maxval);
    let end = start + pgm_raster::raster_size(width, height, maxval);
    if !pgm_samples::none_above(&bytes[start..end], wide, count, maxval) {
        return Err(Refusal::AboveMaxval);
    }
    Ok(())
}

// The first refusal of turning a raster into greys.
fn grey_refusal(
    bytes: &[u8],
    start: usize,
    width: u32,
    height: u32,
    maxval: u32,
    room: usize,
) -> Result<(), Refusal>
    ensures { given result ≡ first (turn_rows bytes.now start width height maxval room) }
{
    pgm_raster::limit_refusal(width, height, maxval)?;
    let size = bytes.len().saturating_sub(start);
    pgm_raster::raster_refusal(width, height, maxval, size)?;
    target_refusal(bytes, start, width, height, maxval, room)
}

// Turns the raster into greys at the front of target.
fn turn(bytes: &[u8], start: usize, width: u32, height: u32, maxval: u32, target: &mut [u16])
    requires { GreyAsks bytes.now start width height maxval (length target.old) }
    ensures { target.new ≡ onto target.old (unpacked (is_wide maxval) (drop start bytes.now) (width * height)) }
{
    let count = (width as usize) * (height as usize);
    let wide = pgm_samples::is_wide(maxval);
    let end = start + pgm_raster::raster_size(width, height, maxval);
    pgm_samples::unpack(&bytes[start..end], wide, count, target);
}

// Turns the raster that stands in `bytes` from `start` on into greys; entries of target behind the last grey keep their contents.
pub fn read_greys(
    bytes: &[u8],
    start: usize,
    width: u32,
    height: u32,
    maxval: u32,
    target: &mut [u16],
) -> Result<(), Refusal>
    ensures { greys_leave (said result) target.new ≡ turned_of bytes.now start width height maxval target.old }
{
    grey_refusal(bytes, start, width, height, maxval, target.len())?;
    turn(bytes, start, width, height, maxval, target);
    Ok(())
}
