// Reads files that Netpbm's own tools made, raw and plain ones, and prints each as Netpbm's plain text, so that it can be held to
// what `pamtopnm -plain` prints of the same file; then whether write lays a raw file's bytes down again, and what it lays down of
// a plain one's film.
#![tactic(auto)]

mod given;
mod text;

use given::Given;

// The number of the standard input.
const STDIN_FILENO: i32 = 0;

// How many samples a raster of so many bytes has.
fn samples_of(bytes: usize, maxval: u32) -> usize {
    if maxval < 256 {
        return bytes;
    }
    bytes / 2
}

// Writes the greys again, and prints whether the file comes out.
fn again(file: &[u8], greys: &[u16], width: u32, height: u32, maxval: u32) {
    let mut out = [0u8; 64];
    match pgm_write::write(greys, width, height, maxval, &mut out) {
        Ok(n) => text::written(text::first_bytes(&out, n), file),
        Err(r) => text::refused(r.number()),
    }
}

// The raster of a file whose sizes were found, turned into greys.
fn film(file: &[u8], width: u32, height: u32, maxval: u32) {
    let mut target = [0u16; 64];
    let raster = pgm_read::read_raster(file);
    match pgm_greys::read_greys(raster, 0, width, height, maxval, &mut target) {
        Ok(()) => {
            let greys = text::first_greys(&target, samples_of(raster.len(), maxval));
            text::plain(greys, width, height, maxval);
            again(file, greys, width, height, maxval);
        }
        Err(r) => text::refused(r.number()),
    }
}

// Writes the greys of a plain file as a raw one, and prints that.
fn as_raw(greys: &[u16], width: u32, height: u32, maxval: u32) {
    let mut out = [0u8; 64];
    match pgm_write::write(greys, width, height, maxval, &mut out) {
        Ok(n) => text::raw(text::first_bytes(&out, n)),
        Err(r) => text::refused(r.number()),
    }
}

// The product of two sides, of which neither is above 64 where the target holds the film.
fn times(width: usize, height: usize) -> usize {
    (width % 65) * (height % 65)
}

// A plain file.
fn show_plain(file: &[u8]) {
    let mut target = [0u16; 64];
    match pgm_plain_read::read_plain(file, &mut target) {
        Ok(s) => {
            let greys = text::first_greys(&target, times(s.width as usize, s.height as usize));
            text::plain(greys, s.width, s.height, s.maxval);
            as_raw(greys, s.width, s.height, s.maxval);
        }
        Err(r) => text::refused(r.number()),
    }
}

// A raw file.
fn show_raw(file: &[u8]) {
    match pgm_read::read_sizes(file) {
        Ok(s) => film(file, s.width, s.height, s.maxval),
        Err(r) => text::refused(r.number()),
    }
}

// One file, behind the command that made it: the second byte says which reader takes it.
fn show(file: &[u8]) {
    if 1 < file.len() {
        if file[1] == b'2' {
            show_plain(file);
            return;
        }
    }
    show_raw(file);
}

// Takes one byte in: one of a command's line is printed, and the end of a line of numbers shows the file.
fn taken(g: Given, b: u8) -> Given {
    if !g.in_bytes {
        text::byte(b);
        if b == b'\n' {
            return given::no_bytes();
        }
        return g;
    }
    if b != b'\n' {
        return given::fed(g, b);
    }
    let file = given::ended(g);
    let bytes = file.bytes;
    show(text::first_bytes(&bytes, file.count));
    given::nothing()
}

// All files of the input.
fn all(input: &[u8]) {
    let mut g = given::nothing();
    for b in input {
        g = taken(g, *b);
    }
}

fn main() {
    let mut input = io::buffer();
    let n = io::read_full(STDIN_FILENO, &mut input);
    all(&input[..n]);
}
