// The calls on PGM files for C: numbers and slices in, 0 or the refusal's number out.
#![tactic(auto)]

ghost use Rattle.std.specs.Prelude.{◌≡◌, length};
ghost use Rattle.pgm_read.specs.Pgm.{read_of, sizes_of};
ghost use Rattle.pgm_greys.specs.Greys.{turned_of};
ghost use Rattle.pgm_write.specs.Write.{write_of};
ghost use Rattle.c_flat.specs.Files.{answered, flat_sizes, flat_raster, flat_greys, written_as, flat_written};

#[unsafe(no_mangle)]
pub extern "C" fn tz_read_sizes(bytes: &[u8], sizes: &mut [u32; 3]) -> u32
    ensures { answered result sizes.new ≡ flat_sizes (sizes_of (read_of bytes.now)) sizes.old }
{
    match pgm_read::read_sizes(bytes) {
        Ok(found) => {
            *sizes = [found.width, found.height, found.maxval];
            0
        }
        Err(r) => r.number(),
    }
}

#[unsafe(no_mangle)]
pub extern "C" fn tz_read_raster(bytes: &[u8], part: &mut [usize; 2]) -> u32
    ensures { answered result part.new ≡ flat_raster (read_of bytes.now) (length bytes.now) part.old }
{
    match pgm_read::read_sizes(bytes) {
        Ok(_) => {
            let size = pgm_read::read_raster(bytes).len();
            *part = [bytes.len() - size, size];
            0
        }
        Err(refusal) => refusal.number(),
    }
}

#[unsafe(no_mangle)]
pub extern "C" fn tz_read_greys(
    bytes: &[u8],
    start: usize,
    width: u32,
    height: u32,
    maxval: u32,
    target: &mut [u16],
) -> u32
    ensures { answered result target.new ≡ flat_greys (turned_of bytes.now start width height maxval target.old) }
{
    let answer = pgm_greys::read_greys(bytes, start, width, height, maxval, target);
    c_flat::code(answer)
}

#[unsafe(no_mangle)]
pub extern "C" fn tz_write(
    picture: &[u16],
    width: u32,
    height: u32,
    maxval: u32,
    out: &mut [u8],
    count: &mut usize,
) -> u32
    ensures { written_as result out.new count.new ≡ flat_written (write_of picture.now width height maxval out.old) count.old }
{
    match pgm_write::write(picture, width, height, maxval, out) {
        Ok(n) => {
            *count = n;
            0
        }
        Err(r) => r.number(),
    }
}
