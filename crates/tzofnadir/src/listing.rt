// The listing: that of `c_listing`, under the name that C sees.
ghost use Rattle.std.specs.Prelude.{◌≡◌};
ghost use Rattle.listing_file.specs.Listing.{list_of};
ghost use Rattle.c_flat.specs.Files.{written_as, flat_written};

// The listing of a PGM file: a refusal is part of its text. 27 where the output has no 512 bytes.
#[unsafe(no_mangle)]
pub extern "C" fn tz_listing(bytes: &[u8], out: &mut [u8], count: &mut usize) -> u32
    ensures { written_as result out.new count.new ≡ flat_written (list_of bytes.now out.old) count.old }
{
    c_listing::tz_listing(bytes, out, count)
}
