// The calls on PGM files: those of `c_files`, under the names that C sees.
ghost use Rattle.std.specs.Prelude.{◌≡◌, length};
ghost use Rattle.pgm_read.specs.Pgm.{read_of, sizes_of};
ghost use Rattle.pgm_greys.specs.Greys.{turned_of};
ghost use Rattle.pgm_write.specs.Write.{write_of};
ghost use Rattle.c_flat.specs.Files.{answered, flat_sizes, flat_raster, flat_greys, written_as, flat_written};

#[unsafe(no_mangle)]
pub extern "C" fn tz_read_sizes(bytes: &[u8], sizes: &mut [u32; 3]) -> u32
    ensures { answered result sizes.new ≡ flat_sizes (sizes_of (read_of bytes.now)) sizes.old }
{
    c_files::tz_read_sizes(bytes, sizes)
}

#[unsafe(no_mangle)]
pub extern "C" fn tz_read_raster(bytes: &[u8], part: &mut [usize; 2]) -> u32
    ensures { answered result part.new ≡ flat_raster (read_of bytes.now) (length bytes.now) part.old }
{
    c_files::tz_read_raster(bytes, part)
}

#[unsafe(no_mangle)]
pub extern "C" fn tz_read_greys(
    bytes: &[u8],
    start: usize,
    width: u32,
    height: u32,
    maxval: u32,
    target: &mut [u16],
) -> u32
    ensures { answered result target.new ≡ flat_greys (turned_of bytes.now start width height maxval target.old) }
{
    c_files::tz_read_greys(bytes, start, width, height, maxval, target)
}

#[unsafe(no_mangle)]
pub extern "C" fn tz_write(
    picture: &[u16],
    width: u32,
    height: u32,
    maxval: u32,
    out: &mut [u8],
    count: &mut usize,
) -> u32
    ensures { written_as result out.new count.new ≡ flat_written (write_of picture.now width height maxval out.old) count.old }
{
    c_files::tz_write(picture, width, height, maxval, out, count)
}
