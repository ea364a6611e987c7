// A row as it is given: a letter, then numbers, each behind one blank. The first five are the row's number, the room that is lent, a
// width, a height and a maxval; the others, 64 at most, are the bytes of a file or the greys of a picture.
#[derive(Clone, Copy)]
pub struct Row {
    pub letter: u8,
    pub head: [u32; 5],
    pub bytes: [u8; 64],
    pub greys: [u16; 64],
    pub count: usize,
    pub value: u32,
    pub in_number: bool,
}

// Before a row.
pub(crate) fn fresh() -> Row {
    Row {
        letter: 0,
        head: [0; 5],
        bytes: [0; 64],
        greys: [0; 64],
        count: 0,
        value: 0,
        in_number: false,
    }
}

// How many bytes or greys a row has.
pub(crate) fn entries(r: Row) -> usize {
    if r.count < 5 {
        return 0;
    }
    r.count - 5
}

// With a number more.
fn pushed(r: Row) -> Row {
    let mut next = r;
    let k = r.count;
    next.value = 0;
    next.in_number = false;
    if k < 5 {
        next.head[k] = r.value;
        next.count = k + 1;
        return next;
    }
    if k < 69 {
        next.bytes[k - 5] = (r.value % 256) as u8;
        next.greys[k - 5] = (r.value % 65536) as u16;
        next.count = k + 1;
    }
    next
}

// With its number ended, where it stands in one.
pub(crate) fn ended(r: Row) -> Row {
    if r.in_number {
        return pushed(r);
    }
    r
}

// With one more byte of its line.
pub(crate) fn fed(r: Row, b: u8) -> Row {
    if b == b' ' {
        return ended(r);
    }
    let mut next = r;
    if r.letter == 0 {
        next.letter = b;
        return next;
    }
    next.in_number = true;
    next.value = r.value % 100000000 * 10 + (b % 48) as u32;
    next
}
