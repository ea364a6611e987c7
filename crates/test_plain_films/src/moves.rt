// Films there and back: a raw file as plain and raw again, and a plain file as raw and plain again.
use crate::line;

// A refusal ends the way: its line, and no sizes.
fn refused(letter: u8, no: u32, n: u32) -> [u32; 3] {
    line::start(letter, no);
    line::field(n as u64);
    line::end();
    [0; 3]
}

// Reads a raw file: its sizes, and its greys in the target.
fn read_raw(letter: u8, no: u32, file: &[u8], target: &mut [u16]) -> [u32; 3] {
    let mut sizes = [0u32; 3];
    let n = c_files::tz_read_sizes(file, &mut sizes);
    if n != 0 {
        return refused(letter, no, n);
    }
    let mut part = [0usize; 2];
    c_files::tz_read_raster(file, &mut part);
    let k = c_files::tz_read_greys(file, part[0], sizes[0], sizes[1], sizes[2], target);
    if k != 0 {
        return refused(letter, no, k);
    }
    sizes
}

// Reads a plain file: its sizes, and its greys in the target.
fn read_plain(letter: u8, no: u32, file: &[u8], target: &mut [u16]) -> [u32; 3] {
    let mut sizes = [0u32; 3];
    let n = c_plain::tz_read_plain(file, &mut sizes, target);
    if n != 0 {
        return refused(letter, no, n);
    }
    sizes
}

// The line of a file that was written: the answer, how many bytes it has, and these.
fn written(letter: u8, no: u32, answer: u32, count: usize, out: &[u8]) {
    line::start(letter, no);
    line::field(answer as u64);
    line::field(count as u64);
    line::bytes(line::first_bytes(out, count));
    line::end();
}

// Writes a film as a raw file; how many bytes that has.
fn write_raw(letter: u8, no: u32, greys: &[u16], sizes: [u32; 3], out: &mut [u8]) -> usize {
    let mut count: usize = 0;
    let n = c_files::tz_write(greys, sizes[0], sizes[1], sizes[2], out, &mut count);
    written(letter, no, n, count, out);
    count
}

// Writes a film as a plain file; how many bytes that has.
fn write_plain(letter: u8, no: u32, greys: &[u16], sizes: [u32; 3], out: &mut [u8]) -> usize {
    let mut count: usize = 0;
    let n = c_plain::tz_write_plain(greys, sizes[0], sizes[1], sizes[2], out, &mut count);
    written(letter, no, n, count, out);
    count
}

// The product of two sides, of which neither is above 64 where the target holds the film.
fn times(width: usize, height: usize) -> usize {
    (width % 65) * (height % 65)
}

// How many pixels a film has.
fn pixels(sizes: [u32; 3]) -> usize {
    times(sizes[0] as usize, sizes[1] as usize)
}

// A raw file as plain, and that as raw again.
pub(crate) fn from_raw(no: u32, file: &[u8]) {
    let mut target = [7u16; 64];
    let mut out = [0u8; 512];
    let there = read_raw(b'T', no, file, &mut target);
    if there[0] == 0 {
        return;
    }
    let count = write_plain(
        b'T',
        no,
        line::first_greys(&target, pixels(there)),
        there,
        &mut out,
    );
    let mut again = [7u16; 64];
    let back = read_plain(b'V', no, line::first_bytes(&out, count), &mut again);
    if back[0] == 0 {
        return;
    }
    let mut last = [0u8; 512];
    write_raw(
        b'V',
        no,
        line::first_greys(&again, pixels(back)),
        back,
        &mut last,
    );
}

// A plain file as raw, and that as plain again.
pub(crate) fn from_plain(no: u32, file: &[u8]) {
    let mut target = [7u16; 64];
    let mut out = [0u8; 512];
    let there = read_plain(b'U', no, file, &mut target);
    if there[0] == 0 {
        return;
    }
    let count = write_raw(
        b'U',
        no,
        line::first_greys(&target, pixels(there)),
        there,
        &mut out,
    );
    let mut again = [7u16; 64];
    let back = read_raw(b'Y', no, line::first_bytes(&out, count), &mut again);
    if back[0] == 0 {
        return;
    }
    let mut last = [0u8; 512];
    write_plain(
        b'Y',
        no,
        line::first_greys(&again, pixels(back)),
        back,
        &mut last,
    );
}
