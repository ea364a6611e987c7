// The calls on plain PGM files for C: numbers and slices in, 0 or the refusal's number out.
#![tactic(auto)]

ghost use Rattle.std.specs.Prelude.{◌≡◌};
ghost use Rattle.c_flat.specs.Files.{answered, flat_sizes, written_as, flat_written};
ghost use Rattle.pgm_plain.specs.Plain.{plain_head_of};
ghost use Rattle.pgm_plain_read.specs.PlainRead.{plain_of, limited_of};
ghost use Rattle.pgm_plain_write.specs.PlainWrite.{plain_write_of};
ghost use Rattle.c_plain.specs.Flat.{read_as, flat_read};

#[unsafe(no_mangle)]
pub extern "C" fn tz_plain_sizes(bytes: &[u8], sizes: &mut [u32; 3]) -> u32
    ensures { answered result sizes.new ≡ flat_sizes (limited_of (plain_head_of bytes.now)) sizes.old }
{
    match pgm_plain_read::plain_sizes(bytes) {
        Ok(found) => {
            *sizes = [found.width, found.height, found.maxval];
            0
        }
        Err(refusal) => refusal.number(),
    }
}

#[unsafe(no_mangle)]
pub extern "C" fn tz_read_plain(bytes: &[u8], sizes: &mut [u32; 3], target: &mut [u16]) -> u32
    ensures { read_as result sizes.new target.new ≡ flat_read (plain_of bytes.now target.old) sizes.old }
{
    match pgm_plain_read::read_plain(bytes, target) {
        Ok(read) => {
            *sizes = [read.width, read.height, read.maxval];
            0
        }
        Err(no) => no.number(),
    }
}

#[unsafe(no_mangle)]
pub extern "C" fn tz_write_plain(
    picture: &[u16],
    width: u32,
    height: u32,
    maxval: u32,
    out: &mut [u8],
    count: &mut usize,
) -> u32
    ensures { written_as result out.new count.new ≡ flat_written (plain_write_of picture.now width height maxval out.old) count.old }
{
    match pgm_plain_write::write_plain(picture, width, height, maxval, out) {
        Ok(n) => {
            *count = n;
            0
        }
        Err(r) => r.number(),
    }
}
