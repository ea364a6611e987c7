// The bins of a row's pixels, each in its pixel's place.
#![tactic(auto)]

ghost use Rattle.std.specs.Prelude.{ℕ, true, ◌≡◌, ◌+◌, ◌-◌, ◌*◌, ◌^◌, ◌≤◌, ◌<◌, length, slice_index, IfSome};
ghost use Rattle.base_lists.specs.Lists.{all};
ghost use Rattle.base_range.specs.Scan.{within};
ghost use Rattle.tile_count.specs.Tally.{Scale};
ghost use Rattle.film_settings.specs.Settings.{bins_of};
ghost use Rattle.pixel_bins.specs.Bins.{binned_of};

use film_settings::Settings;

// With so many bins at most, the products with the factor stay in 32 bits.
const FEW: u32 = 256;

// Puts each pixel's bin in its place, as `bin` gives it.
fn bins_with<F: Fn(u16) -> u16>(pixels: &mut [u16], bin: F)
    requires { (k : ℕ) → k < length pixels.old → F.pre bin (slice_index pixels.old k) }
    ensures { (k : ℕ) → k < length pixels.old → F.post bin (slice_index pixels.old k) (slice_index pixels.new k) }
{
    for pixel in pixels.iter_mut() {
        *pixel = bin(*pixel);
    }
}

// The shift that divides by the greys of a bin, where all bins have as many and they are a power of two.
fn even_shift(s: Settings) -> Option<u16>
    requires { Scale s.min s.max (bins_of s) }
    ensures { IfSome result (λ j. (j < 13) × (bins_of s * 2 ^ j ≡ s.max - s.min + 1)) }
{
    let greys = s.max - s.min + 1;
    let bins = film_settings::bins(s);
    let shift = (greys / bins).ilog2();
    if bins << shift == greys {
        Some(shift as u16)
    } else {
        None
    }
}

// Puts each pixel's bin in its place: by a shift, or by the factor of the range and the bins. Where these are few, more pixels go at once.
pub fn bins_row(pixels: &mut [u16], s: Settings)
    requires { Scale s.min s.max (bins_of s) × (all (within s.min s.max) pixels.old ≡ true) }
    ensures { pixels.new ≡ binned_of s pixels.old }
{
    let bins = film_settings::bins(s);
    let factor = tile_bin::bin_factor(s.min, s.max, bins);
    if let Some(shift) = even_shift(s) {
        let min = s.min as u16;
        bins_with(
            pixels,
            |grey| tile_bin::bin_even(grey, min, s.max, bins, shift),
        );
    } else if bins <= FEW {
        bins_with(
            pixels,
            |grey| tile_bin::bin_few(grey as u32, s.min, factor) as u16,
        );
    } else {
        bins_with(
            pixels,
            |grey| tile_bin::bin_by(grey as u32, s.min, factor) as u16,
        );
    }
}
