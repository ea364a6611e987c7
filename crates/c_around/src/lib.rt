// A window around each pixel for C: numbers and slices in, 0 or the refusal's number out.
#![tactic(auto)]

ghost use Rattle.std.specs.Prelude.{◌≡◌};
ghost use Rattle.film_around.specs.Around.{around_of};
ghost use Rattle.c_flat.specs.Films.{foot_from};
ghost use Rattle.c_around.specs.Flat.{regional, arounded_as, flat_arounded};

// No grid is looked at, so none is asked for.
#[unsafe(no_mangle)]
pub extern "C" fn tz_around(
    width: u32,
    height: u32,
    picture: &[u16],
    side: u32,
    bins: u32,
    min: u32,
    max: u32,
    clip: u32,
    factor: f32,
    target: &mut [u16],
    scratch: &mut [u32],
    limit: &mut u32,
    asked: &mut f32,
    used: &mut f64,
    edition: u32,
) -> u32
    ensures { arounded_as result target.new scratch.new (foot_from limit.new asked.new used.new) ≡ flat_arounded (around_of width height picture.now side (regional bins min max clip factor edition) target.old scratch.old) (foot_from limit.old asked.old used.old) }
{
    let s = c_flat::settings_from(0, 0, bins, min, max, clip, factor, edition);
    match film_around::around(width, height, picture, side, s, target, scratch) {
        Ok(footer) => {
            c_flat::put_footer(limit, asked, used, footer);
            0
        }
        Err(r) => r.number(),
    }
}
