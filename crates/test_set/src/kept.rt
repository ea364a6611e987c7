// The eleven numbers of a film's record, and what the calls of prepare make of them and of its axes.
ghost use Rattle.std.specs.Prelude.{◌≡◌, slice_index};
ghost use Rattle.test_set.specs.Filmset.{float_of, eleven_of_lem, clip_of_lem, edition_of_lem, settings_of, kept_map_record, clip_number_of, clip_factor_of, edition_number_of, flat_of, axes_in_of, printed_numbers, cell_numbers, eleven_from, kept_as, kept_made, kept_prepared, kept_enhanced, eleven_fields_of, done_fields_of, answer_line};

use crate::axes::Axes;
use crate::whole::{Row, word};
use crate::{axes, column};
use base_rows::Refusal;
use film_prepare::Prepared;
use film_settings::{Footer, MapRecord, Settings};
use test_text::Text;
use tile_limit::{Clip, Edition};

// A film's number, sizes and settings, as flat as C hands them.
#[derive(Clone, Copy)]
pub struct Eleven {
    pub film: u32,
    pub width: u32,
    pub height: u32,
    pub across: u32,
    pub down: u32,
    pub bins: u32,
    pub min: u32,
    pub max: u32,
    pub clip: u32,
    pub factor: f32,
    pub edition: u32,
}

// An answer, 0 where the call accepted, and the record that prepare returned or, where it refused, the made one.
#[derive(Clone, Copy)]
pub struct Kept {
    pub number: u32,
    pub eleven: Eleven,
    pub axes: Axes,
}

// The f32 of a bit pattern; one NaN stands for all.
fn factor_of(bits: u32) -> f32
    ensures { result ≡ float_of bits }
{
    if 0x7f800000 < bits % 0x80000000 {
        return 0.0 / 0.0;
    }
    f32::from_bits(bits)
}

// The made record of a film's row.
pub fn made(row: Row) -> Eleven
    ensures { result ≡ eleven_of_lem row }
{
    Eleven {
        film: word(row, column::FILM),
        width: word(row, column::WIDTH),
        height: word(row, column::HEIGHT),
        across: word(row, column::ACROSS),
        down: word(row, column::DOWN),
        bins: word(row, column::BINS),
        min: word(row, column::MIN),
        max: word(row, column::MAX),
        clip: word(row, column::CLIP),
        factor: factor_of(word(row, column::FACTOR)),
        edition: word(row, column::EDITION),
    }
}

fn clip_of(t: Eleven) -> Clip
    ensures { result ≡ clip_of_lem t }
{
    if t.clip == 0 {
        return Clip::Off;
    }
    Clip::Factor(t.factor)
}

fn edition_of(t: Eleven) -> Edition
    ensures { result ≡ edition_of_lem t }
{
    if t.edition == 0 {
        return Edition::Ours;
    }
    Edition::Of1986
}

// The settings among the eleven.
pub fn settings(t: Eleven) -> Settings
    ensures { result ≡ settings_of t }
{
    let clip = clip_of(t);
    let edition = edition_of(t);
    Settings {
        across: t.across,
        down: t.down,
        bins: t.bins,
        min: t.min,
        max: t.max,
        clip,
        edition,
    }
}

// The map record that is kept.
pub fn record(k: Kept) -> MapRecord
    ensures { result ≡ kept_map_record k }
{
    let t = k.eleven;
    let axes = k.axes;
    let settings = settings(t);
    let columns = axes.columns;
    let rows = axes.rows;
    MapRecord {
        film: t.film,
        width: t.width,
        height: t.height,
        settings,
        columns,
        rows,
    }
}

fn clip_number(c: Clip) -> u32
    ensures { result ≡ clip_number_of c }
{
    match c {
        Clip::Off => 0,
        Clip::Factor(_) => 1,
    }
}

fn clip_factor(c: Clip) -> f32
    ensures { result ≡ clip_factor_of c }
{
    match c {
        Clip::Off => 0.0,
        Clip::Factor(f) => f,
    }
}

fn edition_number(e: Edition) -> u32
    ensures { result ≡ edition_number_of e }
{
    match e {
        Edition::Ours => 0,
        Edition::Of1986 => 1,
    }
}

// The eleven numbers of a record.
fn flat(r: MapRecord) -> Eleven
    ensures { result ≡ flat_of r }
{
    let s = r.settings;
    let c = s.clip;
    let e = s.edition;
    Eleven {
        film: r.film,
        width: r.width,
        height: r.height,
        across: s.across,
        down: s.down,
        bins: s.bins,
        min: s.min,
        max: s.max,
        clip: clip_number(c),
        factor: clip_factor(c),
        edition: edition_number(e),
    }
}

// The axes of a record.
fn axes_in(r: MapRecord) -> Axes
    ensures { result ≡ axes_in_of r }
{
    let columns = r.columns;
    let rows = r.rows;
    Axes { columns, rows }
}

// The fields of the eleven.
fn eleven_fields(line: Text, t: Eleven) -> Text
    ensures { result ≡ eleven_fields_of line t }
{
    let numbers = nine(t);
    test_text::word(
        test_text::factor_field(test_text::word_fields(line, &numbers), t.factor),
        t.edition,
    )
}

// The fields of an accepted call: the footer, and of prepare the record.
fn done_fields(line: Text, letter: u8, k: Kept, limit: u32, asked: f32, used: f64) -> Text
    ensures { result ≡ done_fields_of line letter k limit asked used }
{
    let foot = test_text::used_field(
        test_text::factor_field(test_text::word(line, limit), asked),
        used,
    );
    if letter == b'P' {
        let eleven = k.eleven;
        let axes = k.axes;
        return axes::fields(eleven_fields(foot, eleven), axes);
    }
    foot
}

// The line of prepare or enhance: the answer, and of an accepted call its fields. None under the letter 0.
pub fn line(letter: u8, no: u64, k: Kept, limit: u32, asked: f32, used: f64) -> Text
    ensures { result ≡ answer_line letter no k limit asked used }
{
    if letter == 0 {
        return test_text::blank();
    }
    let line = test_text::word(test_text::start(letter, no), k.number);
    if k.number != 0 {
        return test_text::end(line);
    }
    test_text::end(done_fields(line, letter, k, limit, asked, used))
}

// The eleven but for the factor and the edition, in the order in which they are printed.
fn nine(t: Eleven) -> [u32; 9]
    ensures { result ≡ printed_numbers t }
{
    [
        t.film, t.width, t.height, t.across, t.down, t.bins, t.min, t.max, t.clip,
    ]
}

// The eleven but for the factor, in the order in which C has them.
pub fn ten(t: Eleven) -> [u32; 10]
    ensures { result ≡ cell_numbers t }
{
    [
        t.film, t.width, t.height, t.across, t.down, t.bins, t.min, t.max, t.clip, t.edition,
    ]
}

fn nth(numbers: [u32; 10], i: usize) -> u32
    ensures { result ≡ slice_index numbers i }
{
    if i < 10 {
        return numbers[i];
    }
    0
}

// The eleven of these ten and the factor.
fn eleven_of(n: [u32; 10], factor: f32) -> Eleven
    ensures { result ≡ eleven_from n factor }
{
    Eleven {
        film: nth(n, 0),
        width: nth(n, 1),
        height: nth(n, 2),
        across: nth(n, 3),
        down: nth(n, 4),
        bins: nth(n, 5),
        min: nth(n, 6),
        max: nth(n, 7),
        clip: nth(n, 8),
        factor,
        edition: nth(n, 9),
    }
}

// An answer beside the made record.
pub fn of_made(number: u32, eleven: Eleven) -> Kept
    ensures { result ≡ kept_made number eleven }
{
    let axes = axes::of(eleven);
    Kept {
        number,
        eleven,
        axes,
    }
}

// What prepare for C left, printed under the letter if that is not 0.
pub fn of_c(
    letter: u8,
    no: u64,
    number: u32,
    numbers: [u32; 10],
    factor: f32,
    axes: Axes,
    limit: u32,
    asked: f32,
    used: f64,
) -> Kept
    ensures { result ≡ kept_as number (eleven_from numbers factor) axes }
{
    let eleven = eleven_of(numbers, factor);
    let k = Kept {
        number,
        eleven,
        axes,
    };
    test_text::print(line(letter, no, k, limit, asked, used));
    k
}

// What prepare answered, printed under the letter if that is not 0.
pub fn of_prepared(letter: u8, no: u64, asked: Eleven, p: Result<Prepared, Refusal>) -> Kept
    ensures { result ≡ kept_prepared asked p }
{
    match p {
        Ok(made) => {
            let eleven = flat(made.kept);
            let axes = axes_in(made.kept);
            let k = Kept {
                number: 0,
                eleven,
                axes,
            };
            let footer = made.footer;
            test_text::print(line(letter, no, k, footer.limit, footer.asked, footer.used));
            k
        }
        Err(r) => {
            let k = of_made(r.number(), asked);
            test_text::print(line(letter, no, k, 0, 0.0, 0.0));
            k
        }
    }
}

// What enhance answered, printed.
pub fn of_enhanced(no: u64, asked: Eleven, e: Result<Footer, Refusal>) -> Kept
    ensures { result ≡ kept_enhanced asked e }
{
    match e {
        Ok(footer) => {
            let k = of_made(0, asked);
            test_text::print(line(b'E', no, k, footer.limit, footer.asked, footer.used));
            k
        }
        Err(r) => {
            let k = of_made(r.number(), asked);
            test_text::print(line(b'E', no, k, 0, 0.0, 0.0));
            k
        }
    }
}
