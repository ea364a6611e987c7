// The files, greys, writes and listings: raw PGM read, turned into greys, written and listed.
ghost use Rattle.std.specs.Prelude.{◌≡◌};
ghost use Rattle.test_set.specs.Filmset.{sizes_line_of, laid_line_of};

use crate::film::Shot;
use crate::whole::{Row, at, fitting, word};
use crate::{column, digest, film, made};
use base_rows::Refusal;
use test_text::Text;

// What a target of greys counts up from.
const TARGET_BASE: u64 = 40000;

// The answer of a call for the sizes, and the sizes where it accepted.
#[derive(Clone, Copy)]
pub struct Found {
    pub number: u32,
    pub width: u32,
    pub height: u32,
    pub maxval: u32,
}

// The answer of write or of the listing, and the byte count where it accepted.
#[derive(Clone, Copy)]
pub struct Laid {
    pub number: u32,
    pub count: usize,
}

// The bytes of a row that are turned: where the raster starts, how long the target is, and how much of it is digested.
#[derive(Clone, Copy)]
pub struct Turn {
    pub letter: u8,
    pub no: u64,
    pub start: usize,
    pub room: u64,
    pub seen: u64,
}

// A part of a file's bytes, or no byte where it is no part.
fn part(bytes: &[u8], start: usize, size: usize) -> &[u8] {
    let end = std::num::wrapping_add_usize(start, size);
    if start <= end {
        if end <= bytes.len() {
            return &bytes[start..end];
        }
    }
    &bytes[..0]
}

// The bytes lent to write.
fn out_room() -> [u8; 20000] {
    let mut entries = [0u8; 20000];
    for i in 0..20000 {
        entries[i] = (100 + i % 100) as u8;
    }
    entries
}

// The bytes of a file that a row lists from a column on.
fn row_bytes(row: Row, first: usize) -> [u8; 32] {
    let mut entries = [0u8; 32];
    for i in 0..32 {
        let place = std::num::wrapping_add_usize(first, i);
        entries[i] = (at(row, place) % 256) as u8;
    }
    entries
}

fn sizes_c(bytes: &[u8]) -> Found {
    let mut sizes = [0u32; 3];
    let number = c_files::tz_read_sizes(bytes, &mut sizes);
    Found {
        number,
        width: sizes[0],
        height: sizes[1],
        maxval: sizes[2],
    }
}

// Asks for the sizes.
fn sizes(by_c: bool, bytes: &[u8]) -> Found {
    if by_c {
        return sizes_c(bytes);
    }
    match pgm_read::read_sizes(bytes) {
        Ok(found) => Found {
            number: 0,
            width: found.width,
            height: found.height,
            maxval: found.maxval,
        },
        Err(r) => Found {
            number: r.number(),
            width: 0,
            height: 0,
            maxval: 0,
        },
    }
}

// The raster by the call for C: all bytes, which no raster is, where its answer is not that for the sizes.
fn raster_c(bytes: &[u8], number: u32) -> &[u8] {
    let mut place = [bytes.len(), 0];
    if c_files::tz_read_raster(bytes, &mut place) != number {
        return bytes;
    }
    part(bytes, place[0], place[1])
}

// Asks for the raster.
fn raster(by_c: bool, bytes: &[u8], number: u32) -> &[u8] {
    if by_c {
        return raster_c(bytes, number);
    }
    pgm_read::read_raster(bytes)
}

// Turns a raster into greys; answers the call's number.
fn turn_by(by_c: bool, bytes: &[u8], start: usize, f: Found, target: &mut [u16]) -> u32 {
    if by_c {
        return c_files::tz_read_greys(bytes, start, f.width, f.height, f.maxval, target);
    }
    film::drawn_number(pgm_greys::read_greys(bytes, start, f.width, f.height, f.maxval, target))
}

// The lines of a raster turned into greys: answer, digests and target; and how the front of the target looks.
fn turned_lines(t: Turn, number: u32, bytes: &[u8], target: &[u16]) -> Shot {
    let of_file = t.letter == b'G';
    test_text::print(test_text::one(t.letter, t.no, number));
    test_text::print(test_text::two(
        test_text::either(of_file, b'g', b'h'),
        t.no,
        digest::bytes(bytes),
        digest::greys(target),
    ));
    test_text::print(test_text::small(test_text::either(of_file, b't', b'u'), t.no, target));
    Shot {
        number,
        digest: digest::first(target, t.seen),
    }
}

// Makes the target and turns the raster into greys.
fn turned(by_c: bool, t: Turn, f: Found, bytes: &[u8]) -> Shot {
    let mut target = [0u16; 9219];
    let n = fitting(t.room, 9219);
    let g = &mut target[0..n];
    made::output(g, TARGET_BASE);
    let number = turn_by(by_c, bytes, t.start, f, g);
    turned_lines(t, number, bytes, &g[..])
}

// The line of the sizes.
fn sizes_line(no: u64, f: Found) -> Text
    ensures { result ≡ sizes_line_of no f }
{
    if f.number != 0 {
        return test_text::one(b'S', no, f.number);
    }
    let sizes = [0, f.width, f.height, f.maxval];
    test_text::end(test_text::word_fields(test_text::start(b'S', no), &sizes))
}

// The line of the raster; answers where it starts.
fn raster_line(no: u64, raster: &[u8], bytes: &[u8]) -> usize {
    test_text::print(test_text::three(
        b'R',
        no,
        raster.len() as u64,
        digest::bytes(raster),
        digest::bytes(bytes),
    ));
    std::num::wrapping_sub_usize(bytes.len(), raster.len())
}

// The reading steps over the bytes of a file.
fn reading(by_c: bool, no: u64, room: u64, seen: u64, bytes: &[u8]) -> Shot {
    let f = sizes(by_c, bytes);
    test_text::print(sizes_line(no, f));
    let start = raster_line(no, raster(by_c, bytes, f.number), bytes);
    if f.number != 0 {
        return Shot {
            number: f.number,
            digest: 0,
        };
    }
    let t = Turn {
        letter: b'G',
        no,
        start,
        room,
        seen,
    };
    turned(by_c, t, f, bytes)
}

// A row of the files: no, target length, count and the bytes.
pub(crate) fn file(by_c: bool, row: Row) {
    let bytes = row_bytes(row, column::FILE_BYTES);
    reading(
        by_c,
        at(row, column::NO),
        at(row, column::ROOM),
        0,
        part(&bytes, 0, at(row, column::COUNT) as usize),
    );
}

// A row of the greys: no, target length, count, start, width, height, maxval and the bytes.
pub(crate) fn greys(by_c: bool, row: Row) {
    let bytes = row_bytes(row, column::RASTER_BYTES);
    let t = Turn {
        letter: b'H',
        no: at(row, column::NO),
        start: at(row, column::START) as usize,
        room: at(row, column::ROOM),
        seen: 0,
    };
    let f = Found {
        number: 0,
        width: word(row, column::RASTER_WIDTH),
        height: word(row, column::RASTER_HEIGHT),
        maxval: word(row, column::RASTER_MAXVAL),
    };
    turned(by_c, t, f, part(&bytes, 0, at(row, column::COUNT) as usize));
}

fn written_c(row: Row, picture: &[u16], out: &mut [u8]) -> Laid {
    let mut count = 0;
    let number = c_files::tz_write(
        picture,
        word(row, column::WIDTH),
        word(row, column::HEIGHT),
        word(row, column::MAXVAL),
        out,
        &mut count,
    );
    Laid { number, count }
}

fn laid_of(w: Result<usize, Refusal>) -> Laid {
    match w {
        Ok(count) => Laid { number: 0, count },
        Err(r) => Laid {
            number: r.number(),
            count: 0,
        },
    }
}

// Writes a picture.
fn write_by(by_c: bool, row: Row, picture: &[u16], out: &mut [u8]) -> Laid {
    if by_c {
        return written_c(row, picture, out);
    }
    laid_of(pgm_write::write(
        picture,
        word(row, column::WIDTH),
        word(row, column::HEIGHT),
        word(row, column::MAXVAL),
        out,
    ))
}

// The answer of write or of the listing.
fn laid_line(letter: u8, no: u64, laid: Laid) -> Text
    ensures { result ≡ laid_line_of letter no laid }
{
    if laid.number != 0 {
        return test_text::one(letter, no, laid.number);
    }
    test_text::two(letter, no, 0, laid.count as u64)
}

// The lines of write: the answer, the digests of picture and out, and the out.
fn written_lines(no: u64, laid: Laid, picture: &[u16], out: &[u8]) {
    test_text::print(laid_line(b'B', no, laid));
    test_text::print(test_text::two(b'b', no, digest::greys(picture), digest::bytes(out)));
    test_text::print(test_text::small_bytes(b'c', no, out));
}

// What was written, if it was, is read back and held against the picture.
fn read_back(by_c: bool, row: Row, laid: Laid, picture: &[u16], out: &[u8]) {
    if laid.number != 0 {
        return;
    }
    let seen = picture.len() as u64;
    let shot = reading(
        by_c,
        at(row, column::NO),
        at(row, column::BACK_ROOM),
        seen,
        part(out, 0, laid.count),
    );
    let made = Shot {
        number: 0,
        digest: digest::greys(picture),
    };
    test_text::print(film::same(at(row, column::NO), made, shot));
}

// Makes the out and writes the picture.
fn written(by_c: bool, row: Row, picture: &[u16]) {
    let mut out = out_room();
    let n = fitting(at(row, column::BYTES_ROOM), 20000);
    let o = &mut out[0..n];
    let laid = write_by(by_c, row, picture, o);
    written_lines(at(row, column::NO), laid, picture, &o[..]);
    read_back(by_c, row, laid, picture, &o[..]);
}

// A row of the writes: no, maxval, the film rule's columns, out length and target length.
pub(crate) fn write(by_c: bool, row: Row) {
    let mut picture = [0u16; 9216];
    let n = fitting(at(row, column::LENGTH), 9216);
    let p = &mut picture[0..n];
    made::picture(row, p);
    written(by_c, row, &p[..]);
}

fn list_c(bytes: &[u8], out: &mut [u8]) -> Laid {
    let mut count = 0;
    let number = c_listing::tz_listing(bytes, out, &mut count);
    Laid { number, count }
}

// Lists a file.
fn list_by(by_c: bool, bytes: &[u8], out: &mut [u8]) -> Laid {
    if by_c {
        return list_c(bytes, out);
    }
    laid_of(listing_file::list(bytes, out))
}

// Makes the out and lists; the answer, and the digests of the bytes and of the out.
fn listed(by_c: bool, row: Row, bytes: &[u8]) {
    let mut out = out_room();
    let n = fitting(at(row, column::ROOM), 20000);
    let o = &mut out[0..n];
    let laid = list_by(by_c, bytes, o);
    test_text::print(laid_line(b'L', at(row, column::NO), laid));
    test_text::print(test_text::two(
        b'l',
        at(row, column::NO),
        digest::bytes(bytes),
        digest::bytes(&o[..]),
    ));
}

// A row of the listings: no, out length, count and the bytes.
pub(crate) fn list(by_c: bool, row: Row) {
    let bytes = row_bytes(row, column::FILE_BYTES);
    listed(by_c, row, part(&bytes, 0, at(row, column::COUNT) as usize));
}
