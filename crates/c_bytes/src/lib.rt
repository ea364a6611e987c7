// The calls on films of bytes for C: numbers and slices in, 0 or the refusal's number out. What byte slices hold is told, since no refusal is for it.
#![tactic(auto)]

ghost use Rattle.std.specs.Prelude.{true, ◌≡◌};
ghost use Rattle.base_lists.specs.Lists.{all};
ghost use Rattle.byte_narrow.specs.Narrow.{is_byte};
ghost use Rattle.byte_prepare.specs.Bytes.{byte_prepare_of, byte_enhance_of};
ghost use Rattle.byte_draw.specs.Bytes.{byte_draw_of};
ghost use Rattle.c_flat.specs.Flat.{settings_from_of, axes_from, record_from_of, window_from};
ghost use Rattle.c_flat.specs.Films.{foot_from, cells_from, prepared_as, flat_prepared, enhanced_as, flat_enhanced, drawn_as, flat_drawn};

use film_settings::Window;

#[unsafe(no_mangle)]
pub extern "C" fn tz_prepare_bytes(
    film: u32,
    width: u32,
    height: u32,
    picture: &[u8],
    across: u32,
    down: u32,
    bins: u32,
    min: u32,
    max: u32,
    clip: u32,
    factor: f32,
    map: &mut [u8],
    scratch: &mut [u32],
    numbers: &mut [u32; 10],
    kept: &mut f32,
    limit: &mut u32,
    asked: &mut f32,
    used: &mut f64,
    column_edges: &mut [u32; 17],
    column_centres: &mut [u32; 16],
    row_edges: &mut [u32; 17],
    row_centres: &mut [u32; 16],
    list: &mut [u64],
    edition: u32,
) -> u32
    ensures { (prepared_as result map.new scratch.new list.new (cells_from numbers.new kept.new (axes_from column_edges.new column_centres.new row_edges.new row_centres.new) (foot_from limit.new asked.new used.new)) ≡ flat_prepared (byte_prepare_of film width height picture.now (settings_from_of across down bins min max clip factor edition) map.old scratch.old list.old) (cells_from numbers.old kept.old (axes_from column_edges.old column_centres.old row_edges.old row_centres.old) (foot_from limit.old asked.old used.old))) × (all is_byte picture.now ≡ true) }
{
    let s = c_flat::settings_from(across, down, bins, min, max, clip, factor, edition);
    let prepared = byte_prepare::prepare_bytes(film, width, height, picture, s, map, scratch, list);
    c_flat::put_prepared(
        numbers,
        kept,
        limit,
        asked,
        used,
        column_edges,
        column_centres,
        row_edges,
        row_centres,
        prepared,
    )
}

#[unsafe(no_mangle)]
pub extern "C" fn tz_enhance_bytes(
    width: u32,
    height: u32,
    picture: &mut [u8],
    across: u32,
    down: u32,
    bins: u32,
    min: u32,
    max: u32,
    clip: u32,
    factor: f32,
    map: &mut [u8],
    scratch: &mut [u32],
    limit: &mut u32,
    asked: &mut f32,
    used: &mut f64,
    edition: u32,
) -> u32
    ensures { (enhanced_as result picture.new map.new scratch.new (foot_from limit.new asked.new used.new) ≡ flat_enhanced (byte_enhance_of width height picture.old (settings_from_of across down bins min max clip factor edition) map.old scratch.old) (foot_from limit.old asked.old used.old)) × (all is_byte picture.old ≡ true) }
{
    let s = c_flat::settings_from(across, down, bins, min, max, clip, factor, edition);
    match byte_prepare::enhance_bytes(width, height, picture, s, map, scratch) {
        Ok(footer) => {
            c_flat::put_footer(limit, asked, used, footer);
            0
        }
        Err(r) => r.number(),
    }
}

#[unsafe(no_mangle)]
pub extern "C" fn tz_draw_bytes(
    film: u32,
    width: u32,
    height: u32,
    picture: &[u8],
    across: u32,
    down: u32,
    bins: u32,
    min: u32,
    max: u32,
    clip: u32,
    factor: f32,
    numbers: &[u32; 10],
    kept: f32,
    left: u32,
    top: u32,
    window_width: u32,
    window_height: u32,
    map: &[u8],
    out: &mut [u8],
    column_edges: &[u32; 17],
    column_centres: &[u32; 16],
    row_edges: &[u32; 17],
    row_centres: &[u32; 16],
    edition: u32,
) -> u32
    ensures { (drawn_as result out.new ≡ flat_drawn (byte_draw_of film width height picture.now (settings_from_of across down bins min max clip factor edition) (record_from_of numbers.now kept (axes_from column_edges.now column_centres.now row_edges.now row_centres.now)) (window_from left top window_width window_height) map.now out.old)) × (all is_byte picture.now ≡ true) × (all is_byte map.now ≡ true) }
{
    let s = c_flat::settings_from(across, down, bins, min, max, clip, factor, edition);
    let columns = c_flat::axis_from(column_edges, column_centres);
    let rows = c_flat::axis_from(row_edges, row_centres);
    let record = c_flat::record_from(numbers, kept, columns, rows);
    let window = Window {
        left,
        top,
        width: window_width,
        height: window_height,
    };
    let answer = byte_draw::draw_bytes(film, width, height, picture, s, record, window, map, out);
    c_flat::code(answer)
}
