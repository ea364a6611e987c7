// The axes of a record: those of the made one, the entry that a draw changes, and their digests.
ghost use Rattle.std.specs.Prelude.{◌≡◌, ◌/◌, ◌%◌, if◌then◌else◌, slice_set};
ghost use Rattle.test_set.specs.Filmset.{made_axis_of, made_axes, changed_axis_of, changed_axes, axis_fields_of, axes_fields};

use crate::digest;
use crate::kept::Eleven;
use pixel_grid::Axis;
use test_text::Text;

// That of the tile columns and that of the tile rows.
#[derive(Clone, Copy)]
pub struct Axes {
    pub columns: Axis,
    pub rows: Axis,
}

// An axis of a made record: the rule's where the side is not shorter than its tiles are many, else all 0.
fn made_axis(side: u32, tiles: u32) -> Axis
    ensures { result ≡ made_axis_of side tiles }
{
    if tiles < 2 {
        return pixel_grid::no_axis();
    }
    if 16 < tiles {
        return pixel_grid::no_axis();
    }
    if side < tiles {
        return pixel_grid::no_axis();
    }
    if 4096 < side {
        return pixel_grid::no_axis();
    }
    pixel_grid::axis_for(side, tiles)
}

// The axes of the made record.
pub fn of(t: Eleven) -> Axes
    ensures { result ≡ made_axes t }
{
    Axes {
        columns: made_axis(t.width, t.across),
        rows: made_axis(t.height, t.down),
    }
}

// Changes the entry that the value names, where that is asked for and there is such an entry.
fn change(entries: &mut [u32], asked: bool, value: u64)
    ensures { entries.new ≡ (if asked then slice_set entries.old (value / 65536) (value % 65536) else entries.old) }
{
    if !asked {
        return;
    }
    let i = (value / 65536) as usize;
    if i < entries.len() {
        entries[i] = (value % 65536) as u32;
    }
}

// The axis with an entry of its edges changed where the field is theirs, or of its centres where it is theirs.
fn changed_axis(a: Axis, field: u64, of_edges: u64, of_centres: u64, value: u64) -> Axis
    ensures { result ≡ changed_axis_of a field of_edges of_centres value }
{
    let mut edges = a.edges;
    let mut centres = a.centres;
    change(&mut edges, field == of_edges, value);
    change(&mut centres, field == of_centres, value);
    Axis { edges, centres }
}

// The axes with one entry changed where the field is 20 to 23.
pub(crate) fn changed(a: Axes, field: u64, value: u64) -> Axes
    ensures { result ≡ changed_axes a field value }
{
    let columns = a.columns;
    let rows = a.rows;
    Axes {
        columns: changed_axis(columns, field, 20, 21, value),
        rows: changed_axis(rows, field, 22, 23, value),
    }
}

// The digests of the edges and of the centres.
fn axis_fields(line: Text, a: Axis) -> Text
    ensures { result ≡ axis_fields_of line a }
{
    let edges = a.edges;
    let centres = a.centres;
    let of_edges = digest::words(&edges);
    let of_centres = digest::words(&centres);
    test_text::field(test_text::field(line, of_edges), of_centres)
}

pub(crate) fn fields(line: Text, a: Axes) -> Text
    ensures { result ≡ axes_fields line a }
{
    let columns = a.columns;
    let rows = a.rows;
    axis_fields(axis_fields(line, columns), rows)
}
