// The bin of a grey.
#![tactic(auto)]

ghost use Rattle.std.specs.Prelude.{◌≡◌, ◌+◌, ◌-◌, ◌*◌, ◌^◌, ◌≤◌, ◌<◌};
ghost use Rattle.tile_bin.specs.Binning.{factor_of, bin_by_of, bin_of};

// The factor that stands for the bins over the greys of the range, so that no grey is divided. With no more bins than greys it stays in 32 bits.
pub fn bin_factor(min: u32, max: u32, bins: u32) -> u32
    requires { (min ≤ max) × (max ≤ 4095) × (0 < bins) × (bins ≤ max - min + 1) }
    ensures { result ≡ factor_of min max bins }
{
    let greys = max - min + 1;
    ((bins as u64) * 16777216 / (greys as u64) + 1) as u32
}

// The bin of a grey by the factor: one product and one division by 2^24, which is a shift. Where the factor is 2^t + 1 each bin has 2^(24 - t) greys, and a shift alone gives it. Which of the two holds is the same for all greys, so a loop over greys asks it once.
pub fn bin_by(grey: u32, min: u32, factor: u32) -> u32
    requires { (min ≤ grey) × (grey ≤ 4095) }
    ensures { result ≡ bin_by_of min factor grey }
{
    let t = (factor ^ 1).trailing_zeros();
    if 11 < t && t < 25 && (1u32 << t) + 1 == factor {
        (grey - min) >> (24 - t)
    } else {
        ((grey - min) as u64 * factor as u64 / 16777216) as u32
    }
}

// The same for at most 256 bins, where the product stays in 32 bits: more greys go at once.
pub fn bin_few(grey: u32, min: u32, factor: u32) -> u32
    requires { (min ≤ grey) × (grey ≤ 4095) × ((grey - min) * factor < 4294967296) }
    ensures { result ≡ bin_by_of min factor grey }
{
    (grey - min) * factor / 16777216
}

// The same where each bin has 2^shift greys: a shift, and no product. The numbers stay in 16 bits, so that most greys go at once.
pub fn bin_even(grey: u16, min: u16, max: u32, bins: u32, shift: u16) -> u16
    requires { (min ≤ grey) × (shift < 13) × (0 < bins) × (bins * 2 ^ shift ≡ max - min + 1) }
    ensures { result ≡ bin_of min max bins grey }
{
    (grey - min) >> shift
}
