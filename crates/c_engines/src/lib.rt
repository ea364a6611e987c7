// The engine that checks the fast one, for C: numbers and slices in, 0 or the refusal's number out.
#![tactic(auto)]

ghost use Rattle.std.specs.Prelude.{◌≡◌};
ghost use Rattle.film_direct.specs.Direct.{direct_of};
ghost use Rattle.c_flat.specs.Flat.{settings_from_of};
ghost use Rattle.c_flat.specs.Films.{foot_from};
ghost use Rattle.c_engines.specs.Flat.{painted_as, flat_painted};

#[unsafe(no_mangle)]
pub extern "C" fn tz_direct(
    width: u32,
    height: u32,
    picture: &[u16],
    across: u32,
    down: u32,
    bins: u32,
    min: u32,
    max: u32,
    clip: u32,
    factor: f32,
    target: &mut [u16],
    scratch: &mut [u32],
    limit: &mut u32,
    asked: &mut f32,
    used: &mut f64,
    edition: u32,
) -> u32
    ensures { painted_as result target.new scratch.new (foot_from limit.new asked.new used.new) ≡ flat_painted (direct_of width height picture.now (settings_from_of across down bins min max clip factor edition) target.old scratch.old) (foot_from limit.old asked.old used.old) }
{
    let s = c_flat::settings_from(across, down, bins, min, max, clip, factor, edition);
    match film_direct::direct(width, height, picture, s, target, scratch) {
        Ok(footer) => {
            c_flat::put_footer(limit, asked, used, footer);
            0
        }
        Err(r) => r.number(),
    }
}
