// The settings that the byte calls take, and the refusals that they share.
#![tactic(auto)]

ghost use Rattle.std.specs.Prelude.{◌≡◌};
ghost use Rattle.base_rows.specs.Refuse.{first};
ghost use Rattle.base_rows.specs.Given.{given};
ghost use Rattle.byte_profile.specs.Profile.{bins_in_of, profile_rows, byte_rows};

use base_rows::Refusal;
use film_settings::Settings;
use tile_limit::Edition;

// Whether the bins, 0 read as 128, are 64, 128 or 256.
fn bins_in(bins: u32) -> bool
    ensures { result ≡ bins_in_of bins }
{
    matches!(bins, 64 | 128 | 256)
}

// Refusal 30, where it applies.
#[tactic(auto, unfolding(base_rows::specs::Refuse::first, crate::specs::Profile::profile_rows))]
pub fn profile_refusal(s: Settings) -> Result<(), Refusal>
    ensures { given result ≡ first (profile_rows s) }
{
    if s.across != 8 || s.down != 8 {
        return Err(Refusal::ByteProfile);
    }
    if !bins_in(film_settings::bins(s)) {
        return Err(Refusal::ByteProfile);
    }
    if s.min != 0 || s.max != 255 || !film_settings::same_edition(s.edition, Edition::Ours) {
        return Err(Refusal::ByteProfile);
    }
    Ok(())
}

// The first of the refusals 1 to 9, 31, 10, 30 and 11 that applies.
pub fn shared(width: u32, height: u32, size: usize, s: Settings, room: usize) -> Result<(), Refusal>
    ensures { given result ≡ first (byte_rows width height size s room) }
{
    film_settings::setting_refusal(width, height, size, s)?;
    profile_refusal(s)?;
    film_settings::room_refusal(s, room)
}
