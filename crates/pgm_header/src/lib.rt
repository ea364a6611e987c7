// The header of a raw PGM file: its reader and its writer.
#![tactic(auto)]

ghost use Rattle.std.specs.Prelude.{◌≡◌, ◌+◌, ◌≤◌, ◌<◌, [], ◌∷◌, ◌++◌, length, get_or, drop};
ghost use Rattle.base_lists.specs.Lists.{onto, over};
ghost use Rattle.base_rows.specs.Given.{number_of as refusal_of};
ghost use Rattle.pgm_header.specs.Header.{Read, is_white_of, is_digit_of, misfit_of, white_of, digits_of, first_digit_of, number_of, head_fields, header_of, decimal_of, header_bytes};
ghost use Rattle.pgm_header.specs.Told.{number_told, head_told};

use base_rows::Refusal;

// A number of the header with the place behind it.
#[derive(Clone, Copy)]
pub struct Number {
    pub value: u32,
    pub end: usize,
}

// A header: width, height, maxval and the place where the raster starts.
#[derive(Clone, Copy)]
pub struct Head {
    pub width: u32,
    pub height: u32,
    pub maxval: u32,
    pub start: usize,
}

// The byte at a place; 0 past the end, which is no white space, no digit and no `#`.
fn byte(s: &[u8], at: usize) -> u8
    ensures { result ≡ get_or s.now at 0 }
{
    if at < s.len() { s[at] } else { 0 }
}

// Space, tab, CR or LF.
#[tactic(auto, unfolding(crate::specs::Header::is_white_of))]
pub fn is_white(b: u8) -> bool
    ensures { result ≡ is_white_of b }
{
    b == b' ' || b == b'\t' || b == b'\r' || b == b'\n'
}

#[tactic(auto, unfolding(crate::specs::Header::is_digit_of))]
fn is_digit(b: u8) -> bool
    ensures { result ≡ is_digit_of b }
{
    b.is_ascii_digit()
}

// The refusal of a byte that stands in the place of white space or of a digit.
#[tactic(auto, unfolding(crate::specs::Header::misfit_of))]
fn misfit(b: u8) -> Refusal
    ensures { refusal_of result ≡ misfit_of b }
{
    if b == b'#' {
        Refusal::Comment
    } else {
        Refusal::Header
    }
}

// The place behind the white space bytes that start at `at`.
pub fn white_end(s: &[u8], at: usize) -> usize
    requires { at ≤ length s.now }
    ensures { result ≡ white_of (drop at s.now) at }
{
    for i in at..s.len() {
        if !is_white(s[i]) {
            return i;
        }
    }
    s.len()
}

// At most five digits from `at` on; a sixth is left to what reads on.
pub fn digits(s: &[u8], at: usize) -> Number
    requires { at ≤ length s.now }
    ensures { Read result.value result.end ≡ digits_of 5 (drop at s.now) 0 at }
{
    let mut value = 0;
    for i in at..at + 5 {
        let b = byte(s, i);
        if !is_digit(b) {
            return Number { value, end: i };
        }
        value = value * 10 + (b - b'0') as u32;
    }
    Number { value, end: at + 5 }
}

// A number of one to five digits that starts at `at`.
fn first_digit(s: &[u8], at: usize) -> Result<Number, Refusal>
    requires { at ≤ length s.now }
    ensures { number_told result ≡ first_digit_of s.now at }
{
    let b = byte(s, at);
    if !is_digit(b) {
        return Err(misfit(b));
    }
    Ok(digits(s, at))
}

// A number behind one or more white space bytes that start at `at`.
fn read_number(s: &[u8], at: usize) -> Result<Number, Refusal>
    requires { at ≤ length s.now }
    ensures { number_told result ≡ number_of s.now at }
{
    let b = byte(s, at);
    if !is_white(b) {
        return Err(misfit(b));
    }
    let start = white_end(s, at);
    first_digit(s, start)
}

// The header from behind its first two bytes on: width, height and maxval, and exactly one white space byte behind them. A plain file's is read by it too.
pub fn fields(s: &[u8]) -> Result<Head, Refusal>
    requires { 2 ≤ length s.now }
    ensures { head_told result ≡ head_fields s.now }
{
    let width = read_number(s, 2)?;
    let height = read_number(s, width.end)?;
    let maxval = read_number(s, height.end)?;
    let b = byte(s, maxval.end);
    if !is_white(b) {
        return Err(misfit(b));
    }
    Ok(Head {
        width: width.value,
        height: height.value,
        maxval: maxval.value,
        start: maxval.end + 1,
    })
}

// The header of a raw PGM file: "P5", then width, height and maxval.
pub fn header(s: &[u8]) -> Result<Head, Refusal>
    ensures { head_told result ≡ header_of s.now }
{
    if byte(s, 0) != b'P' || byte(s, 1) != b'5' {
        return Err(Refusal::Header);
    }
    fields(s)
}

// How many digits a number of at most five has.
pub fn decimal_length(n: u32) -> usize
    requires { n < 100000 }
    ensures { result ≡ length (decimal_of 5 n) }
{
    match n {
        0..10 => 1,
        10..100 => 2,
        100..1000 => 3,
        1000..10000 => 4,
        _ => 5,
    }
}

// Writes the digits of n from `at` on, the last one first; hands back the place behind them.
fn decimal(out: &mut [u8], at: usize, n: u32) -> usize
    requires { (n < 100000) × (at + length (decimal_of 5 n) ≤ length out.old) }
    ensures { (out.new ≡ over out.old at (decimal_of 5 n)) × (result ≡ at + length (decimal_of 5 n)) }
{
    let count = decimal_length(n);
    let mut v = n;
    for k in (0..count).rev() {
        out[at + k] = b'0' + (v % 10) as u8;
        v /= 10;
    }
    at + count
}

// Writes the digits of n from `at` on and one byte behind them; hands back the place behind it.
pub fn field(out: &mut [u8], at: usize, n: u32, end: u8) -> usize
    requires { (n < 100000) × (at + length (decimal_of 5 n) < length out.old) }
    ensures { (out.new ≡ over out.old at (decimal_of 5 n ++ (end ∷ []))) × (result ≡ at + length (decimal_of 5 n) + 1) }
{
    let e = decimal(out, at, n);
    out[e] = end;
    e + 1
}

// How many bytes a header takes.
#[tactic(auto, using(crate::proofs::Writing::count_most, crate::proofs::Writing::length_header))]
pub fn header_length(width: u32, height: u32, maxval: u32) -> usize
    requires { (width < 100000) × (height < 100000) × (maxval < 100000) }
    ensures { result ≡ length (header_bytes width height maxval) }
{
    3 + decimal_length(width) + 1 + decimal_length(height) + 1 + decimal_length(maxval) + 1
}

// Lays a header down at the front; hands back how many bytes it takes. Bytes behind it keep their contents.
pub fn write_header(out: &mut [u8], width: u32, height: u32, maxval: u32) -> usize
    requires { (width < 100000) × (height < 100000) × (maxval < 100000) × (length (header_bytes width height maxval) ≤ length out.old) }
    ensures { (out.new ≡ onto out.old (header_bytes width height maxval)) × (result ≡ length (header_bytes width height maxval)) }
{
    out[0] = b'P';
    out[1] = b'5';
    out[2] = b'\n';
    let a = field(out, 3, width, b' ');
    let b = field(out, a, height, b'\n');
    field(out, b, maxval, b'\n')
}
