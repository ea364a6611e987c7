// The samples of a plain PGM as they are written, a line each: how many bytes they take, and laid down.
#![tactic(auto)]

ghost use Rattle.std.specs.Prelude.{◌≡◌, ◌+◌, ◌≤◌, ◌<◌, length};
ghost use Rattle.base_lists.specs.Lists.{onto, over};
ghost use Rattle.pgm_header.specs.Header.{decimal_of};
ghost use Rattle.pgm_plain.specs.Plain.{sample_line, lines_of};
ghost use Rattle.pgm_plain_lines.specs.Pairs.{pairs100, two_of};

// How many bytes the samples of a picture take, a line each.
pub fn lines_length(picture: &[u16]) -> usize
    requires { length picture.now ≤ 16777216 }
    ensures { result ≡ length (lines_of picture.now) }
{
    let mut sum = 0;
    for &grey in picture {
        sum += pgm_header::decimal_length(grey as u32) + 1;
    }
    sum
}

// The two digits of each number below 100, one behind the other in an entry of two bytes.
fn fill_pairs(pairs: &mut [u16])
    requires { length pairs.old ≡ 100 }
    ensures { pairs.new ≡ pairs100 }
{
    for i in 0..pairs.len() {
        pairs[i] = (48 + i / 10 + (48 + i % 10) * 256) as u16;
    }
}

// Lays the two digits of a number below 100 down.
fn lay_two(out: &mut [u8], at: usize, n: u32, pairs: &[u16])
    requires { (n < 100) × (at + 1 < length out.old) × (pairs.now ≡ pairs100) }
    ensures { out.new ≡ over out.old at (two_of n) }
{
    let pair = pairs[n as usize];
    out[at] = (pair % 256) as u8;
    out[at + 1] = (pair / 256) as u8;
}

// Lays a sample of three digits down, and LF; hands back the place behind it.
fn lay_three(out: &mut [u8], at: usize, v: u32, pairs: &[u16]) -> usize
    requires { (100 ≤ v) × (v < 1000) × (at + 3 < length out.old) × (pairs.now ≡ pairs100) }
    ensures { (out.new ≡ over out.old at (sample_line v)) × (result ≡ at + 4) }
{
    out[at] = (48 + v / 100) as u8;
    lay_two(out, at + 1, v % 100, pairs);
    out[at + 3] = b'\n';
    at + 4
}

// The same of four digits.
fn lay_four(out: &mut [u8], at: usize, v: u32, pairs: &[u16]) -> usize
    requires { (1000 ≤ v) × (v < 10000) × (at + 4 < length out.old) × (pairs.now ≡ pairs100) }
    ensures { (out.new ≡ over out.old at (sample_line v)) × (result ≡ at + 5) }
{
    lay_two(out, at, v / 100, pairs);
    lay_two(out, at + 2, v % 100, pairs);
    out[at + 4] = b'\n';
    at + 5
}

// Lays a sample down, and LF; hands back the place behind it.
fn lay_line(out: &mut [u8], at: usize, v: u32, pairs: &[u16]) -> usize
    requires { (v < 100000) × (at + length (decimal_of 5 v) < length out.old) × (pairs.now ≡ pairs100) }
    ensures { (out.new ≡ over out.old at (sample_line v)) × (result ≡ at + length (decimal_of 5 v) + 1) }
{
    match v {
        100..1000 => lay_three(out, at, v, pairs),
        1000..10000 => lay_four(out, at, v, pairs),
        _ => pgm_header::field(out, at, v, b'\n'),
    }
}

// Lays the samples of a picture down, a line each; hands back how many bytes they take.
fn lay_each(picture: &[u16], out: &mut [u8], pairs: &[u16]) -> usize
    requires { (length (lines_of picture.now) ≤ length out.old) × (pairs.now ≡ pairs100) }
    ensures { (out.new ≡ onto out.old (lines_of picture.now)) × (result ≡ length (lines_of picture.now)) }
{
    let mut p = 0;
    for &grey in picture {
        p = lay_line(out, p, grey as u32, pairs);
    }
    p
}

// Lays the samples of a picture down at the front of out, a line each, and hands back how many bytes they take; bytes behind
// them keep their contents.
pub fn lay_lines(picture: &[u16], out: &mut [u8]) -> usize
    requires { length (lines_of picture.now) ≤ length out.old }
    ensures { (out.new ≡ onto out.old (lines_of picture.now)) × (result ≡ length (lines_of picture.now)) }
{
    let mut pairs = [0u16; 100];
    fill_pairs(&mut pairs);
    lay_each(picture, out, &pairs)
}
