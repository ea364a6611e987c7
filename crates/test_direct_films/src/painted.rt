// One film: direct, then enhance, and whether they give the same picture.
use test_set::whole::{Row, at, fitting};
use test_set::{column, digest, film, kept, made};
use test_text::Text;

// The column that these rows alone have: how many entries of the target are lent.
const TARGET_ROOM: usize = 25;

// What direct left: its answer, 0 where it accepted, and the target's digest.
#[derive(Clone, Copy)]
pub struct Left {
    pub number: u32,
    pub digest: u64,
}

// Room for the largest picture, or the largest target.
fn room() -> [u16; 16384] {
    [0; 16384]
}

// The line of direct: the answer, and of an accepted film the footer.
fn answer_line(no: u64, number: u32, limit: u32, asked: f32, used: f64) -> Text {
    let line = test_text::word(test_text::start(b'T', no), number);
    if number != 0 {
        return test_text::end(line);
    }
    test_text::end(test_text::used_field(
        test_text::factor_field(test_text::word(line, limit), asked),
        used,
    ))
}

// Calls direct for C, and prints its answer.
fn called(row: Row, picture: &[u16], target: &mut [u16], scratch: &mut [u32]) -> u32 {
    let t = kept::made(row);
    let mut limit = 0;
    let mut asked = 0.0;
    let mut used = 0.0;
    let number = c_engines::tz_direct(
        t.width, t.height, picture, t.across, t.down, t.bins, t.min, t.max, t.clip, t.factor,
        target, scratch, &mut limit, &mut asked, &mut used, t.edition,
    );
    test_text::print(answer_line(at(row, column::NO), number, limit, asked, used));
    number
}

// The lines behind it: the digests of picture, target and scratch, and the target.
fn left_by(no: u64, number: u32, picture: &[u16], target: &[u16], scratch: &[u32]) -> Left {
    let digest = digest::greys(target);
    test_text::print(test_text::three(
        b't',
        no,
        digest::greys(picture),
        digest,
        digest::words(scratch),
    ));
    test_text::print(test_text::small(b'o', no, target));
    Left { number, digest }
}

// Makes target and scratch, calls direct, and prints what comes of it.
fn directed(row: Row, picture: &[u16]) -> Left {
    let mut target = room();
    let n = fitting(at(row, TARGET_ROOM), 16384);
    let o = &mut target[0..n];
    made::output(o, film::OUTPUT_BASE);
    let mut scratch = made::scratch();
    let k = fitting(at(row, column::SCRATCH_ROOM), 4200);
    let s = &mut scratch[0..k];
    let number = called(row, picture, o, s);
    left_by(at(row, column::NO), number, picture, &o[..], &s[..])
}

// The line K: whether both gave the same picture, where both accepted.
fn same(no: u64, a: Left, number: u32, digest: u64) -> Text {
    if a.number != 0 || number != 0 {
        return test_text::blank();
    }
    test_text::one(b'K', no, if a.digest == digest { 1 } else { 0 })
}

// Runs a film's row.
pub fn both(row: Row) {
    let mut picture = room();
    let n = fitting(at(row, column::LENGTH), 16384);
    let p = &mut picture[0..n];
    made::picture(row, p);
    let a = directed(row, &p[..]);
    let b = film::called(false, b'E', row, p);
    let kept = b.kept;
    test_text::print(same(at(row, column::NO), a, kept.number, b.digest));
}
