// One line of the listing's text.
#![tactic(auto)]

ghost use Rattle.std.specs.Prelude.{[], ◌∷◌, ◌≤◌, ◌<◌, length};
ghost use Rattle.listing_line.specs.Lines.{line, refused_text};
ghost use Rattle.listing_line.specs.Asks.{Laid, Told, LineAsks, tile_fields, TileLineAsks};

// Lays a line of numbers down at `at`, a tab behind each and LF behind the last; hands back the place behind it.
fn write_line(out: &mut [u8], at: usize, numbers: &[u32]) -> usize
    requires { LineAsks at numbers.now (length out.old) }
    ensures { Laid out.old at (line numbers.now) out.new result }
{
    let last = numbers.len() - 1;
    let mut p = at;
    for i in 0..last {
        p = pgm_header::field(out, p, numbers[i], b'\t');
    }
    pgm_header::field(out, p, numbers[last], b'\n')
}

// The first line: width, height, grid across, grid down, bins, Min, Max, L.
pub fn first_line(out: &mut [u8], width: u32, height: u32, maxval: u32, limit: u32) -> usize
    requires { (width < 100000) × (height < 100000) × (maxval < 100000) × (limit < 100000) × (48 ≤ length out.old) }
    ensures { Laid out.old 0 (line (width ∷ height ∷ 2 ∷ 2 ∷ 4 ∷ 0 ∷ maxval ∷ limit ∷ [])) out.new result }
{
    let numbers = [width, height, 2, 2, 4, 0, maxval, limit];
    write_line(out, 0, &numbers)
}

// The line of tile k: row, column, E, the looks of the leftover walk, and the mapping.
pub fn tile_line(out: &mut [u8], at: usize, k: usize, excess: u32, looks: u32, map: &[u16]) -> usize
    requires { TileLineAsks at k excess looks map.now (length out.old) }
    ensures { Laid out.old at (line (tile_fields k excess looks map.now)) out.new result }
{
    let a = k * 4;
    let numbers = [
        (k / 2) as u32,
        (k % 2) as u32,
        excess,
        looks,
        map[a] as u32,
        map[a + 1] as u32,
        map[a + 2] as u32,
        map[a + 3] as u32,
    ];
    write_line(out, at, &numbers)
}

// A refusal's line: `refused`, tab, number.
pub fn refused_line(out: &mut [u8], number: u32) -> usize
    requires { (number < 100000) × (512 ≤ length out.old) }
    ensures { Told out.old (refused_text number) out.new result }
{
    base_lists::copy(b"refused\t", out);
    pgm_header::field(out, 8, number, b'\n')
}
