// A row: the film rendered into a target of its own, each pixel by the region around it.
use film_settings::Settings;
use test_set::kept::Kept;
use test_set::whole::{Row, at, fitting, word};
use test_set::{column, digest, kept, made};

// The columns that these rows alone have: the region's side, and the target's length.
const SIDE: usize = 25;

const TARGET_ROOM: usize = 26;

// What a target runs up from before the call.
const TARGET: u64 = 50000;

// Room for the largest picture, or the largest target.
fn pixel_room() -> [u16; 16384] {
    [0; 16384]
}

// A scratch of the longest length before the call: twice the most bins, and some entries behind.
fn scratch_room() -> [u32; 8260] {
    let mut entries = [0u32; 8260];
    for i in 0..8260 {
        entries[i] = (i % 1000 * 5 % 1000 + 1) as u32;
    }
    entries
}

// Calls around, and prints its answer.
fn called(row: Row, picture: &[u16], target: &mut [u16], scratch: &mut [u32]) -> Kept {
    let t = kept::made(row);
    let s: Settings = kept::settings(t);
    let side = word(row, SIDE);
    let answer = film_around::around(t.width, t.height, picture, side, s, target, scratch);
    kept::of_enhanced(at(row, column::NO), t, answer)
}

// The lines of a row: the answer, the digests of picture, target and scratch, and the target.
fn lines(row: Row, picture: &[u16], target: &mut [u16], scratch: &mut [u32]) {
    let no = at(row, column::NO);
    called(row, picture, target, scratch);
    let p = digest::greys(picture);
    let t = digest::greys(&target[..]);
    let s = digest::words(&scratch[..]);
    test_text::print(test_text::three(b'e', no, p, t, s));
    test_text::print(test_text::small(b'o', no, &target[..]));
}

// Runs a row with a scratch of its own.
fn scratched(row: Row, picture: &[u16], target: &mut [u16]) {
    let mut room = scratch_room();
    let k = fitting(at(row, column::SCRATCH_ROOM), 8260);
    let s = &mut room[0..k];
    lines(row, picture, target, s);
}

// Runs a row with a target of its own.
fn targeted(row: Row, picture: &[u16]) {
    let mut room = pixel_room();
    let m = fitting(at(row, TARGET_ROOM), 16384);
    let t = &mut room[0..m];
    made::output(t, TARGET);
    scratched(row, picture, t);
}

// A row of the films.
pub fn film(row: Row) {
    let mut room = pixel_room();
    let n = fitting(at(row, column::LENGTH), 16384);
    let p = &mut room[0..n];
    made::picture(row, p);
    targeted(row, &p[..]);
}
