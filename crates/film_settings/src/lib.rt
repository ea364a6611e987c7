// The records that a station hands in and gets back, and the refusals that all calls on films share.
#![tactic(auto)]

ghost use Rattle.std.specs.Prelude.{◌≡◌, ◌≤◌};
ghost use Rattle.base_rows.specs.Refuse.{first};
ghost use Rattle.base_rows.specs.Given.{given};
ghost use Rattle.film_settings.specs.Settings.{bins_of, kept_of, record_of, no_record_of, Tiled, clip_bad_of, clip_one_of, same_clip_of, same_edition_of, side_rows, length_rows, size_rows, grid_rows, range_rows, clip_rows, grey_rows, room_rows, setting_rows, shared_rows};

use base_rows::Refusal;
use pixel_grid::Axis;
use tile_limit::{Clip, Edition, Judged};

// Grid across and down, bins, grey range, clip setting and edition of the clip rule.
#[derive(Clone, Copy)]
pub struct Settings {
    pub across: u32,
    pub down: u32,
    pub bins: u32,
    pub min: u32,
    pub max: u32,
    pub clip: Clip,
    pub edition: Edition,
}

// What a film's mappings were made for: its number, sizes and settings, with bins 0 kept as 128, and its tiles' edges and centres.
#[derive(Clone, Copy)]
pub struct MapRecord {
    pub film: u32,
    pub width: u32,
    pub height: u32,
    pub settings: Settings,
    pub columns: Axis,
    pub rows: Axis,
}

// The limit, the factor asked for and the factor that the limit really stands for.
#[derive(Clone, Copy)]
pub struct Footer {
    pub limit: u32,
    pub asked: f32,
    pub used: f64,
}

// A part of a film.
#[derive(Clone, Copy)]
pub struct Window {
    pub left: u32,
    pub top: u32,
    pub width: u32,
    pub height: u32,
}

// The bins, with 0 read as 128.
#[tactic(auto, unfolding(crate::specs::Settings::bins_of))]
pub fn bins(s: Settings) -> u32
    ensures { result ≡ bins_of s }
{
    if s.bins == 0 { 128 } else { s.bins }
}

// The settings with bins 0 as 128.
pub fn kept(s: Settings) -> Settings
    ensures { result ≡ kept_of s }
{
    Settings { bins: bins(s), ..s }
}

// The record of a film that is not refused.
pub fn made_for(film: u32, width: u32, height: u32, s: Settings) -> MapRecord
    requires { Tiled width height s }
    ensures { result ≡ record_of film width height s }
{
    let settings = kept(s);
    let columns = pixel_grid::axis_for(width, s.across);
    let rows = pixel_grid::axis_for(height, s.down);
    MapRecord {
        film,
        width,
        height,
        settings,
        columns,
        rows,
    }
}

// What stands beside a refusal's number in the place of a record.
pub fn no_record() -> MapRecord
    ensures { result ≡ no_record_of }
{
    let settings = Settings {
        across: 0,
        down: 0,
        bins: 0,
        min: 0,
        max: 0,
        clip: Clip::Off,
        edition: Edition::Ours,
    };
    let axis = pixel_grid::no_axis();
    MapRecord {
        film: 0,
        width: 0,
        height: 0,
        settings,
        columns: axis,
        rows: axis,
    }
}

// Whether the factor is refused.
pub fn clip_bad(clip: Clip) -> bool
    ensures { result ≡ clip_bad_of clip }
{
    matches!(tile_limit::judge(clip), Judged::Refused)
}

// Whether the factor is exactly 1.0.
pub fn clip_one(clip: Clip) -> bool
    ensures { result ≡ clip_one_of clip }
{
    matches!(tile_limit::judge(clip), Judged::One)
}

// Whether two clip settings are the same.
pub fn same_clip(a: Clip, b: Clip) -> bool
    ensures { result ≡ same_clip_of a b }
{
    a == b
}

// Whether two editions are the same.
pub fn same_edition(one: Edition, other: Edition) -> bool
    ensures { result ≡ same_edition_of one other }
{
    one == other
}

// Refusal 1, where it applies.
#[tactic(auto, unfolding(base_rows::specs::Refuse::first, crate::specs::Settings::side_rows))]
pub fn side_refusal(width: u32, height: u32) -> Result<(), Refusal>
    ensures { given result ≡ first (side_rows width height) }
{
    if width == 0 || 4096 < width || height == 0 || 4096 < height {
        return Err(Refusal::Sides);
    }
    Ok(())
}

// Refusal 2, where it applies.
#[tactic(auto, unfolding(base_rows::specs::Refuse::first, crate::specs::Settings::length_rows))]
pub fn length_refusal(width: u32, height: u32, size: usize) -> Result<(), Refusal>
    requires { (width ≤ 4096) × (height ≤ 4096) }
    ensures { given result ≡ first (length_rows width height size) }
{
    if size != (width as usize) * (height as usize) {
        return Err(Refusal::PictureLength);
    }
    Ok(())
}

// The first of the refusals 1 and 2 that applies.
pub fn size_refusal(width: u32, height: u32, size: usize) -> Result<(), Refusal>
    ensures { given result ≡ first (size_rows width height size) }
{
    side_refusal(width, height)?;
    length_refusal(width, height, size)
}

// The first of the refusals 3 to 6 that applies.
#[tactic(auto, unfolding(base_rows::specs::Refuse::first, crate::specs::Settings::grid_rows))]
pub fn grid_refusal(width: u32, height: u32, s: Settings) -> Result<(), Refusal>
    ensures { given result ≡ first (grid_rows width height s) }
{
    if s.across < 2 || 16 < s.across {
        return Err(Refusal::GridAcross);
    }
    if s.down < 2 || 16 < s.down {
        return Err(Refusal::GridDown);
    }
    if width < s.across {
        return Err(Refusal::NarrowerThanGrid);
    }
    if height < s.down {
        return Err(Refusal::LowerThanGrid);
    }
    Ok(())
}

// The first of the refusals 7 to 9 and 31 that applies. 31 stands behind 8, so Max is above Min there.
#[tactic(auto, unfolding(base_rows::specs::Refuse::first, crate::specs::Settings::range_rows))]
pub fn range_refusal(s: Settings) -> Result<(), Refusal>
    ensures { given result ≡ first (range_rows s) }
{
    if 4095 < s.max {
        return Err(Refusal::MaxAbove4095);
    }
    if s.max <= s.min {
        return Err(Refusal::MinNotBelowMax);
    }
    if s.bins == 1 || 4096 < s.bins {
        return Err(Refusal::Bins);
    }
    let greys = s.max - s.min + 1;
    if greys < bins(s) {
        return Err(Refusal::BinsAboveGreys);
    }
    Ok(())
}

// Refusal 10, where it applies.
#[tactic(auto, unfolding(base_rows::specs::Refuse::first, crate::specs::Settings::clip_rows))]
pub fn clip_refusal(s: Settings) -> Result<(), Refusal>
    ensures { given result ≡ first (clip_rows s) }
{
    if clip_bad(s.clip) {
        return Err(Refusal::Factor);
    }
    Ok(())
}

// The first of the refusals 7 to 9, 31 and 10 that applies.
pub fn grey_refusal(s: Settings) -> Result<(), Refusal>
    ensures { given result ≡ first (grey_rows s) }
{
    range_refusal(s)?;
    clip_refusal(s)
}

// The first of the refusals 1 to 9, 31 and 10 that applies.
pub fn setting_refusal(width: u32, height: u32, size: usize, s: Settings) -> Result<(), Refusal>
    ensures { given result ≡ first (setting_rows width height size s) }
{
    size_refusal(width, height, size)?;
    grid_refusal(width, height, s)?;
    grey_refusal(s)
}

// Refusal 11, where it applies.
#[tactic(auto, unfolding(base_rows::specs::Refuse::first, crate::specs::Settings::room_rows))]
pub fn room_refusal(s: Settings, room: usize) -> Result<(), Refusal>
    requires { (s.across ≤ 16) × (s.down ≤ 16) × (bins_of s ≤ 4096) }
    ensures { given result ≡ first (room_rows s room) }
{
    if room < (s.across as usize) * (s.down as usize) * (bins(s) as usize) {
        return Err(Refusal::MapShort);
    }
    Ok(())
}

// The first of the refusals 1 to 9, 31, 10 and 11 that applies.
pub fn shared(width: u32, height: u32, size: usize, s: Settings, room: usize) -> Result<(), Refusal>
    ensures { given result ≡ first (shared_rows width height size s room) }
{
    setting_refusal(width, height, size, s)?;
    room_refusal(s, room)
}
