// Runs the listing over a set of inputs, and prints the text of each behind a line with its index.

// The number of the standard output.
#![tactic(auto)]

const STDOUT_FILENO: i32 = 1;

fn show(index: u64, bytes: &[u8]) {
    let mut text = [0u8; 512];
    let length = listing_file::laid(listing_file::list(bytes, &mut text));
    io::print_decimal(STDOUT_FILENO, index);
    io::write_all(STDOUT_FILENO, b"\n");
    io::write_all(STDOUT_FILENO, &text[..length]);
}

// Films that are listed: document 01's example, two bytes a sample, and tiles with an excess. The second has two greys for
// four bins, and is refused with 31.
fn listed() {
    show(
        0,
        b"P5\n4 4\n15\n\0\0\0\x04\0\0\x08\x0c\x0f\x0f\0\0\x0f\x0f\x0f\x0f",
    );
    show(1, b"P5 2 2 1 \0\x01\x01\0");
    show(
        2,
        b"P5\t4\r2\n4095\n\x0f\xff\0\0\x01\x2c\x08\0\0\x07\x0f\xfe\x04\0\x0c\0",
    );
    show(
        3,
        b"P5 \n 8 2 \t256 \x01\0\0\0\0\x80\0\xff\x01\0\x01\0\x01\0\x01\0\0\0\0\0\0\0\0\0\0\x40\0\x40\0\x40\0\x41",
    );
    show(4, b"P5 002 00004 00255\r\xff\xfe\x80\x7f\0\x01\x40\x3f");
}

// Headers that are refused with 20 or 21.
fn headers() {
    show(5, b"");
    show(6, b"P6 2 2 1 \0\x01\x01\0");
    show(7, b"P5 2 2 1");
    show(8, b"P52 2 1 \0\x01\x01\0");
    show(9, b"P5 2 000002 1 \0\x01\x01\0");
    show(10, b"P5 # a film\n2 2 1 \0\x01\x01\0");
    show(11, b"P5 2 2# 1 \0\x01\x01\0");
    show(12, b"#P5 2 2 1 \0\x01\x01\0");
}

// Sizes, maxval and rasters that are refused with 22 to 26; a larger film is 22 before 23 and 24.
fn rasters() {
    show(13, b"P5 0 2 1 ");
    show(14, b"P5 2 0 1 ");
    show(15, b"P5 4097 0 1 ");
    show(16, b"P5 128 65 15 ");
    show(17, b"P5 99999 99999 0 ");
    show(18, b"P5 2 2 0 \0\x01\x01\0");
    show(19, b"P5 2 2 4096 \0\x01\0\x01\0\0\0\0");
    show(20, b"P5 2 2 1 \0\x01\x01");
    show(21, b"P5 2 2 256 \0\x01\x01\0");
    show(22, b"P5 2 2 1 \0\x01\x01\0\n");
    show(23, b"P5 2 2 1 \0\x01\x02\0");
    show(24, b"P5 2 2 256 \x01\0\x01\x01\0\0\0\0");
}

// Films of too few greys: with sides that are no multiples of the grid they are 31; with sides shorter than it 5 stands before 6,
// 26 before both, and all of them before 31.
fn grids() {
    show(25, b"P5 3 2 1 \0\x01\x01\0\0\0");
    show(26, b"P5 2 3 1 \0\x01\x01\0\0\0");
    show(27, b"P5 1 1 1 \0");
    show(28, b"P5 1 1 1 \x02");
}

// An input of 32,768 bytes is read, and a longer one is 22, whatever it holds.
fn lengths() {
    let most = [0u8; 32768];
    show(29, &most);
    let longer = [0u8; 32769];
    show(30, &longer);
}

// Films of 8,192 pixels, of one byte a sample and of two, and the next size above.
fn largest() {
    let dark = [0u16; 8192];
    let mut narrow = [0u8; 8205];
    let _ = pgm_write::write(&dark, 128, 64, 15, &mut narrow);
    show(31, &narrow);
    let bright = [300u16; 8192];
    let mut wide = [0u8; 16398];
    let _ = pgm_write::write(&bright, 64, 128, 300, &mut wide);
    show(32, &wide);
    show(33, b"P5 3 2731 15 ");
}

// Films of few greys. Three are fewer than the bins, 31; four have a bin each; of six the first bin and the third have two.
fn greys() {
    show(34, b"P5 2 2 2 \0\x01\x02\0");
    show(35, b"P5 2 2 3 \0\x01\x02\x03");
    show(
        36,
        b"P5 4 4 5 \0\x01\x02\x03\x04\x05\0\x01\x02\x03\x04\x05\x05\x05\x05\x05",
    );
}

// A film whose sides are no multiples of the grid: its tiles have 2, 3, 4 and 6 pixels, and each its own limit.
fn tiles() {
    show(
        37,
        b"P5 5 3 15 \0\0\x05\x05\x05\x0f\x0f\x08\x08\x08\x0f\x0f\x08\x08\0",
    );
}

fn main() {
    listed();
    headers();
    rasters();
    grids();
    lengths();
    largest();
    greys();
    tiles();
}
