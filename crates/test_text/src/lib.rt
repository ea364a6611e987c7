// A printed line as a value: a letter and a row's number, then further fields, each behind a tab, and LF.
#![tactic(auto)]

ghost use Rattle.std.specs.Prelude.{◌≡◌, cond, [], ◌∷◌, ◌^◌, ◌<◌, ◌≤◌, min};
ghost use Rattle.std.specs.Float.{binary32, binary64};
ghost use Rattle.std.specs.Float.Ieee.{to_bits};
ghost use Rattle.test_text.specs.Text.{blank_text, put_of, puts_of, line_start, field_of, fields_of, hex_field_of, line_end, line_of, is_small_of, small_of};

// The number of the standard output.
const STDOUT_FILENO: i32 = 1;

// Its bytes, and how many there are. The longest line lists 64 numbers of 20 digits behind a number of 20.
#[derive(Clone, Copy)]
pub struct Text {
    pub bytes: [u8; 1368],
    pub end: usize,
}

// A line with no byte, of which nothing is printed.
pub fn blank() -> Text
    ensures { result ≡ blank_text }
{
    Text {
        bytes: [0; 1368],
        end: 0,
    }
}

// One byte more.
fn put(t: Text, b: u8) -> Text
    ensures { result ≡ put_of t b }
{
    let at = t.end;
    let mut next = t;
    if at < 1368 {
        next.bytes[at] = b;
        next.end = at + 1;
    }
    next
}

// All of them more.
fn puts(t: Text, bytes: &[u8]) -> Text
    ensures { result ≡ puts_of t bytes.now }
{
    let mut line = t;
    for b in bytes {
        line = put(line, *b);
    }
    line
}

// The letter and the row's number.
pub fn start(letter: u8, no: u64) -> Text
    ensures { result ≡ line_start letter no }
{
    field(put(blank(), letter), no)
}

pub fn field(t: Text, n: u64) -> Text
    ensures { result ≡ field_of t n }
{
    let mut out = [0; 20];
    let count = io::decimal(n, &mut out);
    puts(put(t, b'\t'), &out[..count])
}

// The bits of a float in so many hexadecimal digits.
fn hex_field(t: Text, count: usize, bits: u64) -> Text
    requires { (0 < count) × (count ≤ 16) × (bits < 16 ^ count) }
    ensures { result ≡ hex_field_of t count bits }
{
    let mut out = [0; 16];
    let all = io::hex(bits, count, &mut out);
    puts(put(t, b'\t'), &out[..all])
}

pub fn word(t: Text, n: u32) -> Text
    ensures { result ≡ field_of t n }
{
    field(t, n as u64)
}

pub fn end(t: Text) -> Text
    ensures { result ≡ line_end t }
{
    put(t, b'\n')
}

// The bits of a factor; those of one NaN stand for all.
fn factor_bits(x: f32) -> u32
    ensures { result ≡ to_bits binary32 x }
{
    if x != x {
        return 0x7fc00000;
    }
    f32::to_bits(x)
}

fn used_bits(x: f64) -> u64
    ensures { result ≡ to_bits binary64 x }
{
    if x != x {
        return 0x7ff8000000000000;
    }
    f64::to_bits(x)
}

pub fn factor_field(t: Text, x: f32) -> Text
    ensures { result ≡ hex_field_of t 8 (to_bits binary32 x) }
{
    hex_field(t, 8, factor_bits(x) as u64)
}

pub fn used_field(t: Text, x: f64) -> Text
    ensures { result ≡ hex_field_of t 16 (to_bits binary64 x) }
{
    hex_field(t, 16, used_bits(x))
}

// A line with an answer alone.
pub fn one(letter: u8, no: u64, answer: u32) -> Text
    ensures { result ≡ line_of letter no (answer ∷ []) }
{
    end(word(start(letter, no), answer))
}

pub fn two(letter: u8, no: u64, a: u64, b: u64) -> Text
    ensures { result ≡ line_of letter no (a ∷ b ∷ []) }
{
    end(field(field(start(letter, no), a), b))
}

pub fn three(letter: u8, no: u64, a: u64, b: u64, c: u64) -> Text
    ensures { result ≡ line_of letter no (a ∷ b ∷ c ∷ []) }
{
    end(field(field(field(start(letter, no), a), b), c))
}

pub fn four(letter: u8, no: u64, a: u64, b: u64, c: u64, d: u64) -> Text
    ensures { result ≡ line_of letter no (a ∷ b ∷ c ∷ d ∷ []) }
{
    end(field(field(field(field(start(letter, no), a), b), c), d))
}

// The fields of all entries.
fn fields(t: Text, entries: &[u16]) -> Text
    ensures { result ≡ fields_of t entries.now }
{
    let mut line = t;
    for entry in entries {
        line = field(line, *entry as u64);
    }
    line
}

fn byte_fields(t: Text, entries: &[u8]) -> Text
    ensures { result ≡ fields_of t entries.now }
{
    let mut line = t;
    for entry in entries {
        line = field(line, *entry as u64);
    }
    line
}

pub fn word_fields(t: Text, entries: &[u32]) -> Text
    ensures { result ≡ fields_of t entries.now }
{
    let mut line = t;
    for entry in entries {
        line = field(line, *entry as u64);
    }
    line
}

fn long_fields(t: Text, entries: &[u64]) -> Text
    ensures { result ≡ fields_of t entries.now }
{
    let mut line = t;
    for entry in entries {
        line = field(line, *entry);
    }
    line
}

// Whether a buffer of so many entries is listed.
#[tactic(auto, unfolding(crate::specs::Text::is_small_of))]
fn is_small(length: usize) -> bool
    ensures { result ≡ is_small_of length }
{
    0 < length && length <= 64
}

// A small buffer of 1 to 64 entries, listed; blank for any other.
pub fn small(letter: u8, no: u64, entries: &[u16]) -> Text
    ensures { result ≡ small_of letter no entries.now }
{
    if is_small(entries.len()) {
        return end(fields(start(letter, no), entries));
    }
    blank()
}

pub fn small_bytes(letter: u8, no: u64, entries: &[u8]) -> Text
    ensures { result ≡ small_of letter no entries.now }
{
    if is_small(entries.len()) {
        return end(byte_fields(start(letter, no), entries));
    }
    blank()
}

pub fn small_words(letter: u8, no: u64, entries: &[u32]) -> Text
    ensures { result ≡ small_of letter no entries.now }
{
    if is_small(entries.len()) {
        return end(word_fields(start(letter, no), entries));
    }
    blank()
}

pub fn small_longs(letter: u8, no: u64, entries: &[u64]) -> Text
    ensures { result ≡ small_of letter no entries.now }
{
    if is_small(entries.len()) {
        return end(long_fields(start(letter, no), entries));
    }
    blank()
}

// One of two letters.
pub fn either(is_first: bool, first: u8, second: u8) -> u8
    ensures { result ≡ cond is_first first second }
{
    if is_first { first } else { second }
}

// Writes a line to standard output; answers how many bytes it has.
pub fn print(t: Text) -> usize
    ensures { result ≡ min t.end 1368 }
{
    let n = t.end.min(1368);
    let bytes = t.bytes;
    io::write_all(STDOUT_FILENO, &bytes[..n]);
    n
}
