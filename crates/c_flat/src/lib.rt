// Settings, records and footers as the calls for C pass them: numbers and slices to records and back, once.
#![tactic(auto)]

ghost use Rattle.std.specs.Prelude.{◌≡◌};
ghost use Rattle.base_rows.specs.Given.{said};
ghost use Rattle.film_prepare.specs.Prepare.{prepared_says};
ghost use Rattle.c_flat.specs.Flat.{returned, clip_from_of, clip_number_of, clip_factor_of, edition_from_of, edition_number_of, settings_from_of, record_numbers, axes_from, axes_of, axes_after, axis_from_of, record_from_of};
ghost use Rattle.c_flat.specs.Films.{foot_from, foot_after, cells_from, cells_after};

use base_rows::Refusal;
use film_prepare::Prepared;
use film_settings::{Footer, MapRecord, Settings};
use pixel_grid::Axis;
use tile_limit::{Clip, Edition};

pub fn clip_from(clip: u32, factor: f32) -> Clip
    ensures { result ≡ clip_from_of clip factor }
{
    if clip == 0 {
        Clip::Off
    } else {
        Clip::Factor(factor)
    }
}

pub fn clip_number(clip: Clip) -> u32
    ensures { result ≡ clip_number_of clip }
{
    match clip {
        Clip::Off => 0,
        Clip::Factor(_) => 1,
    }
}

pub fn clip_factor(clip: Clip) -> f32
    ensures { result ≡ clip_factor_of clip }
{
    match clip {
        Clip::Off => 0.0,
        Clip::Factor(f) => f,
    }
}

pub fn edition_from(edition: u32) -> Edition
    ensures { result ≡ edition_from_of edition }
{
    if edition == 0 {
        Edition::Ours
    } else {
        Edition::Of1986
    }
}

pub fn edition_number(edition: Edition) -> u32
    ensures { result ≡ edition_number_of edition }
{
    match edition {
        Edition::Ours => 0,
        Edition::Of1986 => 1,
    }
}

pub fn settings_from(
    across: u32,
    down: u32,
    bins: u32,
    min: u32,
    max: u32,
    clip: u32,
    factor: f32,
    edition: u32,
) -> Settings
    ensures { result ≡ settings_from_of across down bins min max clip factor edition }
{
    Settings {
        across,
        down,
        bins,
        min,
        max,
        clip: clip_from(clip, factor),
        edition: edition_from(edition),
    }
}

// The edges and centres of an axis go out in two arrays.
fn put_axis(edges: &mut [u32; 17], centres: &mut [u32; 16], a: Axis)
    ensures { (edges.new ≡ a.edges) × (centres.new ≡ a.centres) }
{
    let e = a.edges;
    *edges = e;
    let c = a.centres;
    *centres = c;
}

pub fn axis_from(edges: &[u32; 17], centres: &[u32; 16]) -> Axis
    ensures { result ≡ axis_from_of edges.now centres.now }
{
    let e = *edges;
    let c = *centres;
    Axis {
        edges: e,
        centres: c,
    }
}

// A record goes out in ten numbers, its factor in a cell apart, and its edges and centres in four arrays.
fn put_record(
    numbers: &mut [u32; 10],
    kept: &mut f32,
    column_edges: &mut [u32; 17],
    column_centres: &mut [u32; 16],
    row_edges: &mut [u32; 17],
    row_centres: &mut [u32; 16],
    r: MapRecord,
)
    ensures { (numbers.new ≡ record_numbers r) × (kept.new ≡ clip_factor_of r.settings.clip) × (axes_from column_edges.new column_centres.new row_edges.new row_centres.new ≡ axes_after r) }
{
    let s = r.settings;
    *numbers = [
        r.film,
        r.width,
        r.height,
        s.across,
        s.down,
        s.bins,
        s.min,
        s.max,
        clip_number(s.clip),
        edition_number(s.edition),
    ];
    *kept = clip_factor(s.clip);
    put_axis(column_edges, column_centres, r.columns);
    put_axis(row_edges, row_centres, r.rows);
}

pub fn record_from(numbers: &[u32; 10], factor: f32, columns: Axis, rows: Axis) -> MapRecord
    ensures { result ≡ record_from_of numbers.now factor (axes_of columns rows) }
{
    let settings = settings_from(
        numbers[3], numbers[4], numbers[5], numbers[6], numbers[7], numbers[8], factor, numbers[9],
    );
    MapRecord {
        film: numbers[0],
        width: numbers[1],
        height: numbers[2],
        settings,
        columns,
        rows,
    }
}

// What a call returns that hands back no values: 0, or the refusal's number.
pub fn code(answer: Result<(), Refusal>) -> u32
    ensures { result ≡ returned (said answer) }
{
    match answer {
        Ok(()) => 0,
        Err(r) => r.number(),
    }
}

// A footer goes out in three cells.
pub fn put_footer(limit: &mut u32, asked: &mut f32, used: &mut f64, foot: Footer)
    ensures { foot_from limit.new asked.new used.new ≡ foot_after foot }
{
    *limit = foot.limit;
    *asked = foot.asked;
    *used = foot.used;
}

// What prepare answers goes out: an accepted film's record and footer to their cells. A refusal writes to none.
pub fn put_prepared(
    numbers: &mut [u32; 10],
    kept: &mut f32,
    limit: &mut u32,
    asked: &mut f32,
    used: &mut f64,
    column_edges: &mut [u32; 17],
    column_centres: &mut [u32; 16],
    row_edges: &mut [u32; 17],
    row_centres: &mut [u32; 16],
    p: Result<Prepared, Refusal>,
) -> u32
    ensures { (result ≡ returned (prepared_says p)) × (cells_from numbers.new kept.new (axes_from column_edges.new column_centres.new row_edges.new row_centres.new) (foot_from limit.new asked.new used.new) ≡ cells_after (prepared_says p) (cells_from numbers.old kept.old (axes_from column_edges.old column_centres.old row_edges.old row_centres.old) (foot_from limit.old asked.old used.old))) }
{
    match p {
        Ok(made) => {
            put_record(
                numbers,
                kept,
                column_edges,
                column_centres,
                row_edges,
                row_centres,
                made.kept,
            );
            put_footer(limit, asked, used, made.footer);
            0
        }
        Err(r) => r.number(),
    }
}
