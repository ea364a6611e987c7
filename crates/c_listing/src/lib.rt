// The listing for C: slices in, 0 or the refusal's number out.
#![tactic(auto)]

ghost use Rattle.std.specs.Prelude.{◌≡◌};
ghost use Rattle.listing_file.specs.Listing.{list_of};
ghost use Rattle.c_flat.specs.Files.{written_as, flat_written};

// The listing of a PGM file: a refusal is part of its text. 27 where the output has no 512 bytes.
#[unsafe(no_mangle)]
pub extern "C" fn tz_listing(bytes: &[u8], out: &mut [u8], count: &mut usize) -> u32
    ensures { written_as result out.new count.new ≡ flat_written (list_of bytes.now out.old) count.old }
{
    match listing_file::list(bytes, out) {
        Ok(laid) => {
            *count = laid;
            0
        }
        Err(r) => r.number(),
    }
}
