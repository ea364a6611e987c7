// What a lent buffer holds before the first call of a row, and the film rule.
ghost use Rattle.std.specs.Prelude.{◌≡◌, ◌%◌, length, slice_index, slice_set};
ghost use Rattle.base_lists.specs.Lists.{tab};
ghost use Rattle.test_set.specs.Filmset.{fill_of, scratch_of, list_entry};

use crate::column;
use crate::whole::{Row, at, minus, plus, rest, times};

// The numbers of a row that the film rule asks for.
#[derive(Clone, Copy)]
pub struct Rule {
    pub kind: u64,
    pub width: u64,
    pub height: u64,
    pub lo: u64,
    pub span: u64,
    pub seed: u64,
    pub place: u64,
    pub value: u64,
}

// The rule of a film or a write: their columns from the width to the poked value are the same.
fn rule_of(row: Row) -> Rule {
    Rule {
        width: at(row, column::WIDTH),
        height: at(row, column::HEIGHT),
        kind: at(row, column::KIND),
        lo: at(row, column::LO),
        span: minus(at(row, column::HI), at(row, column::LO)),
        seed: at(row, column::SEED),
        place: at(row, column::POKE_AT),
        value: at(row, column::POKE_VALUE),
    }
}

// The quotient, and 0 where b is 0.
fn over(a: u64, b: u64) -> u64 {
    if b == 0 {
        return 0;
    }
    a / b
}

// A number as an entry of a picture.
fn grey(n: u64) -> u16
    ensures { result ≡ n % 65536 }
{
    (n % 65536) as u16
}

// The generator's next number.
fn step(g: u64) -> u64 {
    plus(times(g, 1103515245), 12345) % 2147483648
}

fn ramp(r: Rule, i: u64) -> u64 {
    let way = plus(rest(i, r.width), over(i, r.width));
    over(times(way, r.span), minus(plus(r.width, r.height), 2))
}

fn two_values(span: u64, g: u64) -> u64 {
    if g / 65536 % 4 == 0 {
        return span;
    }
    0
}

// How far the line stands from the film's middle, in half lines.
fn off_middle(line: u64, height: u64) -> u64 {
    let centre = plus(times(2, line), 1);
    plus(minus(centre, height), minus(height, centre))
}

// The weld without its root, its pores and the noise: the bead in the middle third, else the plate.
fn bead(r: Rule, col: u64, u: u64) -> u64 {
    if times(3, u) < r.height {
        let ripple = plus(times(3, col), u) % 8;
        return plus(times(5, r.span) / 8, times(ripple, r.span) / 64);
    }
    plus(r.span / 4, over(times(col, r.span), times(8, r.width)))
}

// How much darker a root or a pore is, where one lies.
fn flaw(span: u64, col: u64, u: u64) -> u64 {
    if u < 2 {
        return span / 8;
    }
    if u != 3 {
        return 0;
    }
    if col % 13 == 5 {
        return span / 8;
    }
    0
}

fn weld(r: Rule, g: u64, i: u64) -> u64 {
    let col = rest(i, r.width);
    let u = off_middle(over(i, r.width), r.height);
    let noise = rest(g / 256, plus(r.span / 16, 1));
    plus(minus(bead(r, col, u), flaw(r.span, col, u)), noise)
}

// How far pixel i stands above lo, with g the generator's number for it.
fn above(r: Rule, g: u64, i: u64) -> u64 {
    let kind = r.kind;
    match kind {
        0 => rest(r.seed, plus(r.span, 1)),
        1 => ramp(r, i),
        2 => rest(g / 256, plus(r.span, 1)),
        3 => two_values(r.span, g),
        _ => weld(r, g, i),
    }
}

// Pixel i: the poked value at its place, else by the rule.
fn pixel(r: Rule, g: u64, i: u64) -> u16 {
    if i == r.place {
        return grey(r.value);
    }
    grey(plus(r.lo, above(r, g, i)))
}

// Makes the picture. The kinds that draw no numbers leave the generator aside.
pub fn picture(row: Row, entries: &mut [u16])
    ensures { length entries.new ≡ length entries.old }
{
    let r = rule_of(row);
    let mut g = r.seed;
    for i in 0..entries.len() {
        g = step(g);
        entries[i] = pixel(r, g, i as u64);
    }
}

// Sets the entry at a place, if there is one.
pub(crate) fn poke(entries: &mut [u16], place: u64, value: u64)
    ensures { entries.new ≡ slice_set entries.old place (value % 65536) }
{
    let i = place as usize;
    if i < entries.len() {
        entries[i] = grey(value);
    }
}

// Entry i becomes base and what is left of first + i * pace by span.
fn fill(entries: &mut [u16], base: u64, first: u64, pace: u64, span: u64)
    ensures { entries.new ≡ tab (length entries.old) (fill_of base first pace span) }
{
    for i in 0..entries.len() {
        let way = plus(times(i as u64, pace), first);
        entries[i] = grey(plus(base, rest(way, span)));
    }
}

// Fills a map: its entries go up by 7 again and again.
pub fn map(row: Row, entries: &mut [u16])
    ensures { entries.new ≡ tab (length entries.old) (fill_of (slice_index row 21) 3 7 (slice_index row 22)) }
{
    fill(
        entries,
        at(row, column::FILL_BASE),
        3,
        7,
        at(row, column::FILL_SPAN),
    );
}

// Fills an output of draw or a target of greys: its entries run up from base again and again.
pub fn output(entries: &mut [u16], base: u64)
    ensures { entries.new ≡ tab (length entries.old) (fill_of base 0 1 1000) }
{
    fill(entries, base, 0, 1, 1000);
}

// A scratch of the longest length before a call.
pub fn scratch() -> [u32; 4200]
    ensures { result ≡ tab 4200 scratch_of }
{
    let mut entries = [0u32; 4200];
    for i in 0..4200 {
        entries[i] = (i % 1000 * 5 % 1000 + 1) as u32;
    }
    entries
}

// A list of the longest length before a call: its entries are more than 32 bits hold.
pub fn list() -> [u64; 600]
    ensures { result ≡ tab 600 list_entry }
{
    let mut entries = [0u64; 600];
    for i in 0..600 {
        entries[i] = 1099511627776 + (i % 1000) as u64;
    }
    entries
}
