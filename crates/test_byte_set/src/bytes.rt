// Lent bytes: each entry is the one that the wide rows have, taken modulo 256.
use test_set::made;
use test_set::whole::{Row, fitting};

// Room for the wide entries of the largest picture.
pub(crate) fn room() -> [u16; 262144] {
    [0; 262144]
}

// Entry i as a byte; 0 where there is none.
fn byte(wide: &[u16], i: usize) -> u8 {
    if i < wide.len() {
        return (wide[i] % 256) as u8;
    }
    0
}

// Takes the wide entries as bytes.
pub(crate) fn taken(wide: &[u16], entries: &mut [u8]) {
    for i in 0..entries.len() {
        entries[i] = byte(wide, i);
    }
}

// Makes the picture of a row.
pub(crate) fn picture(row: Row, entries: &mut [u8]) {
    let mut wide = room();
    let n = fitting(entries.len() as u64, 262144);
    let w = &mut wide[0..n];
    made::picture(row, w);
    taken(&w[..], entries);
}

// Fills a map.
pub(crate) fn map(row: Row, entries: &mut [u8]) {
    let mut wide = room();
    let n = fitting(entries.len() as u64, 262144);
    let w = &mut wide[0..n];
    made::map(row, w);
    taken(&w[..], entries);
}

// Fills an output of draw.
pub(crate) fn output(entries: &mut [u8], base: u64) {
    let mut wide = room();
    let n = fitting(entries.len() as u64, 262144);
    let w = &mut wide[0..n];
    made::output(w, base);
    taken(&w[..], entries);
}

// Sets the entry at a place, if there is one.
pub(crate) fn poke(entries: &mut [u8], place: u64, value: u64) {
    let i = place as usize;
    if i < entries.len() {
        entries[i] = (value % 256) as u8;
    }
}
