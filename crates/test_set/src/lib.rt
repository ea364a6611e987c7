// The film set: its rows come from standard input, go through every call of prepare, draw and pgm, and what comes out is
// printed. The programs `test_films` and `test_calls` are this, once over the calls themselves and once over those for C.
#![tactic(auto)]

pub mod axes;
pub mod column;
pub mod digest;
mod file;
pub mod film;
pub mod kept;
pub mod made;
pub mod row;
pub mod whole;

ghost use Rattle.std.specs.Prelude.{◌≡◌, ◌≤◌, length};

// The number of the standard input.
const STDIN_FILENO: i32 = 0;

// Room for the largest picture. Behind a call its zeros stay unread where a proof looks at the room's length.
fn room() -> [u16; 1050624] {
    [0; 1050624]
}

// Room for the set's rows.
fn rows_room() -> [u8; 131072]
    ensures { 131072 ≡ length result }
{
    [0; 131072]
}

// Runs the set, and answers how many bytes of it were read. A set of more than 131,072 bytes is cut, and then its text is not the stored one.
pub fn run(by_c: bool) -> usize
    ensures { result ≤ 131072 }
{
    let mut bytes = rows_room();
    let mut picture = room();
    let mut out = room();
    let n = io::read_full(STDIN_FILENO, &mut bytes);
    row::rows(by_c, &bytes[..n], &mut picture, &mut out);
    n
}
