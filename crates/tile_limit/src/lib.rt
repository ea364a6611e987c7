// The clip setting, the judgement of it, the limit L from the factor's exact fraction, and the factor used.
#![tactic(auto)]

ghost use Rattle.std.specs.Prelude.{◌≡◌};
ghost use Rattle.tile_limit.specs.Limit.{judge_of, floored_of, limit_of, used_of, LimitAsks, UsedAsks};

// The clip setting is one of two: off, or a factor carried as f32.
#[derive(Clone, Copy, Debug, PartialEq)]
pub enum Clip {
    Off,
    Factor(f32),
}

// Whose clip rule is followed: ours, or that of the report of 1986.
#[derive(Clone, Copy, Debug, PartialEq, Eq)]
pub enum Edition {
    Ours,
    Of1986,
}

// What a clip setting is worth: off, refused with 10, exactly 1.0, or a factor above it.
#[derive(Clone, Copy)]
pub enum Judged {
    Off,
    Refused,
    One,
    Above(f32),
}

// The one place where a clip setting is judged.
pub fn judge(clip: Clip) -> Judged
    ensures { result ≡ judge_of clip }
{
    match clip {
        Clip::Off => Judged::Off,
        Clip::Factor(f) => {
            if !(1.0 <= f && f <= 1024.0) {
                Judged::Refused
            } else if f == 1.0 {
                Judged::One
            } else {
                Judged::Above(f)
            }
        }
    }
}

// Factor x pixels / bins of a tile, in whole numbers, rounded down once, and at least 1.
fn floored(factor: f32, pixels: u32, bins: u32) -> u32
    requires { LimitAsks factor pixels bins }
    ensures { result ≡ floored_of factor pixels bins }
{
    let bits = f32::to_bits(factor) as u64;
    let exponent = bits / 8388608;
    let digits = bits % 8388608 + 8388608;
    let whole = (digits << (exponent - 127)) * (pixels as u64);
    let floor = whole / ((bins as u64) * 8388608);
    floor.max(1) as u32
}

// The limit L of a tile of `pixels` pixels: that, or pixels / bins rounded up where this is larger. So the bins always hold the tile.
#[tactic(auto, unfolding(crate::specs::Limit::limit_of))]
pub fn limit(factor: f32, pixels: u32, bins: u32) -> u32
    requires { LimitAsks factor pixels bins }
    ensures { result ≡ limit_of factor pixels bins }
{
    let floor = floored(factor, pixels, bins);
    let least = (pixels + (bins - 1)) / bins;
    floor.max(least)
}

// The factor that the limit really stands for: L x B and N, each cast exactly, divided once.
pub fn used(limit: u32, bins: u32, pixels: u32) -> f64
    requires { UsedAsks limit bins }
    ensures { result ≡ used_of limit bins pixels }
{
    let room = ((limit as u64) * (bins as u64)) as f64;
    let counted = pixels as f64;
    room / counted
}
