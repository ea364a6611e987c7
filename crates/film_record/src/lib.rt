// What a map record and a window are judged by: whether the record was made for this film, size and settings, and whether the window lies inside the film.
#![tactic(auto)]

ghost use Rattle.std.specs.Prelude.{◌≡◌};
ghost use Rattle.base_rows.specs.Refuse.{first};
ghost use Rattle.base_rows.specs.Given.{given};
ghost use Rattle.film_settings.specs.Settings.{Tiled};
ghost use Rattle.film_record.specs.Held.{film_rows, kept_rows, edition_rows, axis_rows, record_rows, window_rows};

use base_rows::Refusal;
use film_settings::{MapRecord, Settings, Window};

// Refusal 15, where the record is another film's or of another size.
#[tactic(auto, unfolding(base_rows::specs::Refuse::first, crate::specs::Held::film_rows))]
pub fn film_refusal(film: u32, width: u32, height: u32, record: MapRecord) -> Result<(), Refusal>
    ensures { given result ≡ first (film_rows film width height «record») }
{
    if film != record.film || width != record.width || height != record.height {
        return Err(Refusal::OtherRecord);
    }
    Ok(())
}

// Refusal 15, where the settings are not those that were kept. Bins 0 are read as 128 on both sides.
#[tactic(auto, unfolding(base_rows::specs::Refuse::first, crate::specs::Held::kept_rows))]
pub fn kept_refusal(s: Settings, kept: Settings) -> Result<(), Refusal>
    ensures { given result ≡ first (kept_rows s kept) }
{
    if s.across != kept.across || s.down != kept.down {
        return Err(Refusal::OtherRecord);
    }
    if film_settings::bins(s) != film_settings::bins(kept) {
        return Err(Refusal::OtherRecord);
    }
    if s.min != kept.min || s.max != kept.max || !film_settings::same_clip(s.clip, kept.clip) {
        return Err(Refusal::OtherRecord);
    }
    Ok(())
}

// Refusal 15, where the edition is not the one that was kept: with clip off and at factor 1.0 too.
#[tactic(auto, unfolding(base_rows::specs::Refuse::first, crate::specs::Held::edition_rows))]
pub fn edition_refusal(s: Settings, kept: Settings) -> Result<(), Refusal>
    ensures { given result ≡ first (edition_rows s kept) }
{
    if !film_settings::same_edition(s.edition, kept.edition) {
        return Err(Refusal::OtherRecord);
    }
    Ok(())
}

// Refusal 15, where the record's edges or centres are not those of a film of this size with this grid.
#[tactic(auto, unfolding(base_rows::specs::Refuse::first, crate::specs::Held::axis_rows))]
pub fn axis_refusal(width: u32, height: u32, s: Settings, record: MapRecord) -> Result<(), Refusal>
    requires { Tiled width height s }
    ensures { given result ≡ first (axis_rows width height s «record») }
{
    if !pixel_grid::same_axis(pixel_grid::axis_for(width, s.across), record.columns) {
        return Err(Refusal::OtherRecord);
    }
    if !pixel_grid::same_axis(pixel_grid::axis_for(height, s.down), record.rows) {
        return Err(Refusal::OtherRecord);
    }
    Ok(())
}

// Refusal 15, where the record differs from what comes with the call.
pub fn record_refusal(
    film: u32,
    width: u32,
    height: u32,
    s: Settings,
    record: MapRecord,
) -> Result<(), Refusal>
    requires { Tiled width height s }
    ensures { given result ≡ first (record_rows film width height s «record») }
{
    film_refusal(film, width, height, record)?;
    kept_refusal(s, record.settings)?;
    edition_refusal(s, record.settings)?;
    axis_refusal(width, height, s, record)
}

// The first of the refusals 16 and 17 that applies.
#[tactic(auto, unfolding(base_rows::specs::Refuse::first, crate::specs::Held::window_rows))]
pub fn window_refusal(width: u32, height: u32, win: Window, room: usize) -> Result<(), Refusal>
    ensures { given result ≡ first (window_rows width height win room) }
{
    if win.width == 0 || win.height == 0 {
        return Err(Refusal::Window);
    }
    if (width as u64) < (win.left as u64) + (win.width as u64) {
        return Err(Refusal::Window);
    }
    if (height as u64) < (win.top as u64) + (win.height as u64) {
        return Err(Refusal::Window);
    }
    if room != (win.height as usize) * (win.width as usize) {
        return Err(Refusal::OutputLength);
    }
    Ok(())
}
