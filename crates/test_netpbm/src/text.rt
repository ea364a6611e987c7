// The printed lines.

// The number of the standard output.
const STDOUT_FILENO: i32 = 1;

pub(crate) fn line(text: &[u8]) {
    io::write_all(STDOUT_FILENO, text);
    io::write_all(STDOUT_FILENO, b"\n");
}

// One byte of a line.
pub(crate) fn byte(b: u8) {
    let text = [b];
    io::write_all(STDOUT_FILENO, &text);
}

pub(crate) fn refused(n: u32) {
    io::write_all(STDOUT_FILENO, b"refused ");
    io::print_decimal(STDOUT_FILENO, n as u64);
    io::write_all(STDOUT_FILENO, b"\n");
}

// The first entries, or all where there are fewer.
pub(crate) fn first_greys(entries: &[u16], n: usize) -> &[u16] {
    if n <= entries.len() {
        return &entries[0..n];
    }
    entries
}

pub(crate) fn first_bytes(entries: &[u8], n: usize) -> &[u8] {
    if n <= entries.len() {
        return &entries[0..n];
    }
    entries
}

// How many samples of a row are left behind this one; a row's end ends the line.
fn left_behind(left: u32, width: u32) -> u32 {
    if left < 2 {
        io::write_all(STDOUT_FILENO, b"\n");
        return width;
    }
    left - 1
}

// The rows, a space behind each sample.
fn rows(greys: &[u16], width: u32) {
    let mut left = width;
    for grey in greys {
        io::print_decimal(STDOUT_FILENO, *grey as u64);
        io::write_all(STDOUT_FILENO, b" ");
        left = left_behind(left, width);
    }
}

// A film as Netpbm's plain PGM.
pub(crate) fn plain(greys: &[u16], width: u32, height: u32, maxval: u32) {
    line(b"P2");
    io::print_decimal(STDOUT_FILENO, width as u64);
    io::write_all(STDOUT_FILENO, b" ");
    io::print_decimal(STDOUT_FILENO, height as u64);
    io::write_all(STDOUT_FILENO, b"\n");
    io::print_decimal(STDOUT_FILENO, maxval as u64);
    io::write_all(STDOUT_FILENO, b"\n");
    rows(greys, width);
}

pub(crate) fn written(bytes: &[u8], file: &[u8]) {
    if bytes == file {
        line(b"written again: the same bytes");
        return;
    }
    line(b"written again: other bytes");
}

// The bytes as numbers, each behind one blank.
fn numbers(bytes: &[u8]) {
    for b in bytes {
        io::write_all(STDOUT_FILENO, b" ");
        io::print_decimal(STDOUT_FILENO, *b as u64);
    }
}

// The raw file of a plain one.
pub(crate) fn raw(bytes: &[u8]) {
    io::write_all(STDOUT_FILENO, b"written raw:");
    numbers(bytes);
    io::write_all(STDOUT_FILENO, b"\n");
}
