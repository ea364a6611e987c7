// The edges and centres of a film's tile columns and rows.
#![tactic(auto)]

ghost use Rattle.std.specs.Prelude.{◌≡◌, ◌≤◌, ◌<◌};
ghost use Rattle.pixel_grid.specs.Grid.{edge_of, size_of, centre_of, edge_at_of, centre_at_of, axis_of, no_axis_of, same_axis_of, Fits};

use std::array;

// The edges and centres of the tile columns of a film, or of its tile rows; 0 behind the last of each.
#[derive(Clone, Copy, PartialEq, Eq)]
pub struct Axis {
    pub edges: [u32; 17],
    pub centres: [u32; 16],
}

// The first column (or row) of tile i; the one after the last where i is the grid. With the usual grid of 8 the division is a shift.
pub fn edge(side: u32, grid: u32, i: u32) -> u32
    requires { Fits side grid × (i ≤ grid) }
    ensures { result ≡ edge_of side grid i }
{
    let across = i * side;
    if grid == 8 { across / 8 } else { across / grid }
}

// How wide (or high) tile i is.
pub fn size(side: u32, grid: u32, i: u32) -> u32
    requires { Fits side grid × (i < grid) }
    ensures { result ≡ size_of side grid i }
{
    let first = edge(side, grid, i);
    edge(side, grid, i + 1) - first
}

// The centre of tile i.
pub fn centre(side: u32, grid: u32, i: u32) -> u32
    requires { Fits side grid × (i < grid) }
    ensures { result ≡ centre_of side grid i }
{
    let first = edge(side, grid, i);
    let behind = edge(side, grid, i + 1);
    (first + behind) / 2
}

// Edge i, where there is one, else 0.
fn edge_at(side: u32, grid: u32, i: u32) -> u32
    requires { Fits side grid }
    ensures { result ≡ edge_at_of side grid i }
{
    if i <= grid { edge(side, grid, i) } else { 0 }
}

// Centre i, where there is one, else 0.
fn centre_at(side: u32, grid: u32, i: u32) -> u32
    requires { Fits side grid }
    ensures { result ≡ centre_at_of side grid i }
{
    if i < grid { centre(side, grid, i) } else { 0 }
}

// What a map record keeps of the tile columns, or of the tile rows.
pub fn axis_for(side: u32, grid: u32) -> Axis
    requires { Fits side grid }
    ensures { result ≡ axis_of side grid }
{
    Axis {
        edges: array::from_fn(|i| edge_at(side, grid, i as u32)),
        centres: array::from_fn(|i| centre_at(side, grid, i as u32)),
    }
}

// What stands there in the record of no film.
pub fn no_axis() -> Axis
    ensures { result ≡ no_axis_of }
{
    Axis {
        edges: [0; 17],
        centres: [0; 16],
    }
}

// Whether two are the same.
pub fn same_axis(a: Axis, b: Axis) -> bool
    ensures { result ≡ same_axis_of a b }
{
    a == b
}
