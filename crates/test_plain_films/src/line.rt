// The printed lines: a letter, then numbers, each behind a tab.

// The number of the standard output.
const STDOUT_FILENO: i32 = 1;

pub(crate) fn field(n: u64) {
    io::write_all(STDOUT_FILENO, b"\t");
    io::print_decimal(STDOUT_FILENO, n);
}

pub(crate) fn start(letter: u8, no: u32) {
    let text = [letter];
    io::write_all(STDOUT_FILENO, &text);
    field(no as u64);
}

pub(crate) fn end() {
    io::write_all(STDOUT_FILENO, b"\n");
}

// A line that begins with an answer and three sizes.
pub(crate) fn sizes(letter: u8, no: u32, answer: u32, sizes: [u32; 3]) {
    start(letter, no);
    field(answer as u64);
    field(sizes[0] as u64);
    field(sizes[1] as u64);
    field(sizes[2] as u64);
}

pub(crate) fn greys(entries: &[u16]) {
    for entry in entries {
        field(*entry as u64);
    }
}

pub(crate) fn bytes(entries: &[u8]) {
    for entry in entries {
        field(*entry as u64);
    }
}

// The first entries, or all where there are fewer.
pub(crate) fn first_greys(entries: &[u16], n: usize) -> &[u16] {
    if n <= entries.len() {
        return &entries[0..n];
    }
    entries
}

pub(crate) fn first_bytes(entries: &[u8], n: usize) -> &[u8] {
    if n <= entries.len() {
        return &entries[0..n];
    }
    entries
}

// The same of a slice that is lent to be written.
pub(crate) fn front_greys(entries: &mut [u16], n: usize) -> &mut [u16] {
    if n <= entries.len() {
        return &mut entries[0..n];
    }
    entries
}

pub(crate) fn front_bytes(entries: &mut [u8], n: usize) -> &mut [u8] {
    if n <= entries.len() {
        return &mut entries[0..n];
    }
    entries
}
