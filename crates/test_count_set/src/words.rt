// Lent counts: what they hold before counting, and how a row changes them behind it.
use test_set::whole::{low, plus, rest};

// What counts run up from, above half of what 32 bits hold.
const COUNTS_BASE: u64 = 3000000000;

// Fills the counts before counting: the entries run up again and again.
pub(crate) fn fill(entries: &mut [u32]) {
    for i in 0..entries.len() {
        entries[i] = low(plus(COUNTS_BASE, rest(i as u64, 1000)));
    }
}

// The entry at a place, if there is one, gains a number modulo 2^32.
pub(crate) fn gain(entries: &mut [u32], place: u64, more: u64) {
    let i = place as usize;
    if i < entries.len() {
        entries[i] = std::num::wrapping_add_u32(entries[i], low(more));
    }
}

// What the entry at a place gains where each at a multiple of the step does: nothing at step 0.
fn share(i: usize, step: u64, more: u64) -> u64 {
    if step == 0 {
        return 0;
    }
    if rest(i as u64, step) == 0 {
        return more;
    }
    0
}

// Each entry at a multiple of the step gains a number modulo 2^32.
pub(crate) fn gain_each(entries: &mut [u32], step: u64, more: u64) {
    for i in 0..entries.len() {
        let part = share(i, step, more);
        gain(entries, i as u64, part);
    }
}
