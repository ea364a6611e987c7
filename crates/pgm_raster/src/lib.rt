// A raster's limits and its size, which reading, turning into greys and writing share: the refusals 22 to 25.
#![tactic(auto)]

ghost use Rattle.std.specs.Prelude.{◌≡◌, ◌≤◌};
ghost use Rattle.base_rows.specs.Refuse.{first};
ghost use Rattle.base_rows.specs.Given.{given};
ghost use Rattle.pgm_raster.specs.Raster.{raster_size_of, head_rows, raster_rows};

use base_rows::Refusal;

// The first of the refusals 22 and 23 that applies.
#[tactic(auto, unfolding(base_rows::specs::Refuse::first, crate::specs::Raster::head_rows))]
pub fn limit_refusal(width: u32, height: u32, maxval: u32) -> Result<(), Refusal>
    ensures { given result ≡ first (head_rows width height maxval) }
{
    if width == 0 || 4096 < width || height == 0 || 4096 < height {
        return Err(Refusal::FileSides);
    }
    if maxval == 0 || 4095 < maxval {
        return Err(Refusal::Maxval);
    }
    Ok(())
}

// How many bytes a raster takes.
#[tactic(auto, using(crate::proofs::Tables::count_small))]
pub fn raster_size(width: u32, height: u32, maxval: u32) -> usize
    requires { (width ≤ 4096) × (height ≤ 4096) }
    ensures { result ≡ raster_size_of width height maxval }
{
    let count = (width as usize) * (height as usize);
    if pgm_samples::is_wide(maxval) {
        count * 2
    } else {
        count
    }
}

// The first of the refusals 24 and 25 that applies to `size` bytes of raster.
#[tactic(auto, unfolding(base_rows::specs::Refuse::first, crate::specs::Raster::raster_rows))]
pub fn raster_refusal(width: u32, height: u32, maxval: u32, size: usize) -> Result<(), Refusal>
    requires { (width ≤ 4096) × (height ≤ 4096) }
    ensures { given result ≡ first (raster_rows width height maxval size) }
{
    let whole = raster_size(width, height, maxval);
    if size < whole {
        return Err(Refusal::RasterShort);
    }
    if whole < size {
        return Err(Refusal::RasterLong);
    }
    Ok(())
}
