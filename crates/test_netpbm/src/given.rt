// A file as it is given: a line with the command that made it, and a line with its bytes as numbers, each but the first
// behind one blank.
#[derive(Clone, Copy)]
pub struct Given {
    pub in_bytes: bool,
    pub bytes: [u8; 64],
    pub count: usize,
    pub value: u32,
}

// Before a command's line.
pub(crate) fn nothing() -> Given {
    Given {
        in_bytes: false,
        bytes: [0; 64],
        count: 0,
        value: 0,
    }
}

// Before a line of numbers.
pub(crate) fn no_bytes() -> Given {
    let mut next = nothing();
    next.in_bytes = true;
    next
}

// With its number ended: one byte more, of which there are 64 at most.
pub(crate) fn ended(g: Given) -> Given {
    let mut next = g;
    let k = g.count;
    next.value = 0;
    if k < 64 {
        next.bytes[k] = (g.value % 256) as u8;
        next.count = k + 1;
    }
    next
}

// With one more byte of a line of numbers.
pub(crate) fn fed(g: Given, b: u8) -> Given {
    if b == b' ' {
        return ended(g);
    }
    let mut next = g;
    next.value = g.value % 1000 * 10 + (b % 48) as u32;
    next
}
