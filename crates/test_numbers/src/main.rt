// The numbers of document 01 that are to be run, each printed behind its name, and numbers of films that are too large for
// a program's memory: sums above 32 bits, and the largest tile whose division is a product.
#![tactic(auto)]

ghost use Rattle.std.specs.Prelude.{◌≡◌, true, ◌/◌, ◌≤◌, length};
ghost use Rattle.base_lists.specs.Lists.{all};
ghost use Rattle.base_range.specs.Scan.{within};

use base_rows::Refusal;
use film_settings::{Footer, Settings, Window};
use tile_limit::{Clip, Edition};

// The number of the standard output.
const STDOUT_FILENO: i32 = 1;

fn print(name: &[u8], n: u32) {
    io::write_all(STDOUT_FILENO, name);
    io::write_all(STDOUT_FILENO, b"\t");
    io::print_decimal(STDOUT_FILENO, n as u64);
    io::write_all(STDOUT_FILENO, b"\n");
}

// What enhance answers for a flat film of 20 by 20, whose tiles have 100 pixels, with 64 bins.
fn asked(factor: f32) -> Result<Footer, Refusal> {
    let mut picture = [7u16; 400];
    let mut map = [0u16; 256];
    let mut scratch = [0u32; 64];
    let s = Settings {
        across: 2,
        down: 2,
        bins: 64,
        min: 0,
        max: 255,
        clip: Clip::Factor(factor),
        edition: Edition::Ours,
    };
    film_prepare::enhance(20, 20, &mut picture[..], s, &mut map[..], &mut scratch[..])
}

fn number(answer: Result<Footer, Refusal>) -> u32 {
    match answer {
        Ok(_) => 0,
        Err(r) => r.number(),
    }
}

fn limit(answer: Result<Footer, Refusal>) -> u32 {
    match answer {
        Ok(foot) => foot.limit,
        Err(_) => 0,
    }
}

// 1 where the factor used is 128 / 100 in f64.
fn used(answer: Result<Footer, Refusal>) -> u32 {
    match answer {
        Ok(foot) => { if foot.used == 128.0 / 100.0 { 1 } else { 0 } }
        Err(_) => 0,
    }
}

fn wide(grey: u16) -> u32 {
    grey as u32
}

// The rendered pixel x 2, y 2 of the film that the document lists.
fn rendered() -> u32 {
    let mut picture = [0u16, 0, 0, 4, 0, 0, 8, 12, 15, 15, 0, 0, 15, 15, 15, 15];
    let mut map = [0u16; 16];
    let mut scratch = [0u32; 4];
    let s = Settings {
        across: 2,
        down: 2,
        bins: 4,
        min: 0,
        max: 15,
        clip: Clip::Factor(2.0),
        edition: Edition::Ours,
    };
    let answer = film_prepare::enhance(4, 4, &mut picture[..], s, &mut map[..], &mut scratch[..]);
    match answer {
        Ok(_) => wide(picture[10]),
        Err(r) => 1000 + r.number() % 1000,
    }
}

// The mapped value of bin 0 of a tile of 2048 by 2048 pixels, all but one of which lie in it.
fn mapped() -> u32 {
    let counts = [4194303u32, 1];
    let mut out = [0u16; 2];
    tile_map::map(&counts, 4194304, 0, 4095, &mut out);
    wide(out[0])
}

// Renders a row of a film of two by two tiles of `side` by `side` pixels: it starts `past` columns and `past` rows behind
// the first tile's middle. The mapped values are 4095, and in the last tile that of bin 0 is 4094.
fn show(pixels: &mut [u16], side: u32, past: u32)
    requires { (128 ≤ side) × (side ≤ 2048) × (past ≤ side / 2) × (length pixels.old ≤ 64) × (all (within 0 4095) pixels.old ≡ true) }
{
    let s = Settings {
        across: 2,
        down: 2,
        bins: 8,
        min: 0,
        max: 4095,
        clip: Clip::Off,
        edition: Edition::Ours,
    };
    let at = side / 2 + past;
    let win = Window {
        left: at,
        top: at,
        width: pixels.len() as u32,
        height: 1,
    };
    let mut map = [4095u16; 32];
    map[24] = 4094;
    pixel_render::render(pixels, win, side * 2, side * 2, s, &map);
}

// The first pixel of such a row. One pixel is weighed from its four tiles.
fn one(side: u32, past: u32) -> u32
    requires { (128 ≤ side) × (side ≤ 2048) × (past ≤ side / 2) }
{
    let mut pixels = [0u16];
    show(&mut pixels, side, past);
    wide(pixels[0])
}

// The same in a row of many pixels, which go by pairs.
fn many(side: u32, past: u32) -> u32
    requires { (128 ≤ side) × (side ≤ 2048) × (past ≤ side / 2) }
{
    let mut pixels = [0u16; 64];
    show(&mut pixels, side, past);
    wide(pixels[0])
}

fn main() {
    print(b"factor 1.0", number(asked(1.0)));
    print(
        b"the f32 below 1.0",
        number(asked(0.999999940395355224609375)),
    );
    print(b"factor 1024.0", number(asked(1024.0)));
    print(b"the f32 above 1024.0", number(asked(1024.0001220703125)));
    print(b"L 2, B 64, N 100: L", limit(asked(1.5)));
    print(
        b"L 2, B 64, N 100: the factor used is 128 / 100",
        used(asked(1.5)),
    );
    print(b"N 100, B 64, factor 1.25: L", limit(asked(1.25)));
    print(b"the rendered pixel x 2, y 2", rendered());
    large();
}

// The numbers of large films. One column and one row behind the middle, the last tile's weight is 1 of side * side, so the
// grey is 4095 less a very little; midway between the tiles each tile's part of the sum is above 32 bits.
fn large() {
    print(b"2048 by 2048 pixels: the mapped value", mapped());
    print(b"2048 by 2048 pixels: one pixel", one(2048, 1));
    print(b"2048 by 2048 pixels: many pixels", many(2048, 1));
    print(b"1024 by 1024 pixels: one pixel", one(1024, 1));
    print(b"1024 by 1024 pixels: many pixels", many(1024, 1));
    print(b"2048 by 2048 pixels, midway: one pixel", one(2048, 1024));
    print(
        b"2048 by 2048 pixels, midway: many pixels",
        many(2048, 1024),
    );
}
