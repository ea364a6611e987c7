// The listing program: reads a PGM file from standard input and writes its listing to standard output.
#![tactic(auto)]

// The numbers of the standard input and output.
const STDIN_FILENO: i32 = 0;

const STDOUT_FILENO: i32 = 1;

fn main() {
    // One byte more than the most that is listed, so that a longer input is known.
    let mut bytes = [0u8; 32769];
    let mut text = [0u8; 512];
    let n = io::read_full(STDIN_FILENO, &mut bytes);
    let length = listing_file::laid(listing_file::list(&bytes[..n], &mut text));
    io::write_all(STDOUT_FILENO, &text[..length]);
}
