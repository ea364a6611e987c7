// Why a call refuses: the refusals by name, each with its number, and the tables that say which of them a call gives.
#![tactic(auto)]

ghost use Rattle.std.specs.Prelude.{◌≡◌};
ghost use Rattle.base_rows.specs.Given.{number_of};

use std::error::Error;
use std::fmt;

// The refusals, and the number that each is told by. 19, 28 and 29 are none.
#[derive(Clone, Copy, Debug, PartialEq, Eq)]
pub enum Refusal {
    // Width or height is 0 or above 4096.
    Sides = 1,
    // The picture's length is not width x height.
    PictureLength = 2,
    // The grid across is not 2 to 16.
    GridAcross = 3,
    // The grid down is not 2 to 16.
    GridDown = 4,
    // The width is less than the grid across.
    NarrowerThanGrid = 5,
    // The height is less than the grid down.
    LowerThanGrid = 6,
    // Max is above 4095.
    MaxAbove4095 = 7,
    // Min is not below Max.
    MinNotBelowMax = 8,
    // Bins are 1 or above 4096.
    Bins = 9,
    // The factor is NaN, infinite, below 1.0 or above 1024.0.
    Factor = 10,
    // The map buffer is too short.
    MapShort = 11,
    // The scratch is too short.
    ScratchShort = 12,
    // A pixel is outside Min to Max.
    PixelOutside = 13,
    // Was the clip refusal once: no call gives it any more, and its number is given to nothing else.
    Retired = 14,
    // The record, or the room's set, was made for something else.
    OtherRecord = 15,
    // The window is empty or not inside the film.
    Window = 16,
    // The output's length is not the window's area, or the target's not width x height.
    OutputLength = 17,
    // An entry of the mappings is outside Min to Max.
    MappingOutside = 18,
    // The header does not fit.
    Header = 20,
    // `#` in the header.
    Comment = 21,
    // A side in the file is 0 or above 4096.
    FileSides = 22,
    // Maxval is 0 or above 4095.
    Maxval = 23,
    // The raster is too short, or a sample is missing or not one to five digits.
    RasterShort = 24,
    // Bytes stand behind the raster.
    RasterLong = 25,
    // A sample, or a grey to be written, is above maxval.
    AboveMaxval = 26,
    // The caller's target or output is too short.
    TargetShort = 27,
    // The settings are outside the byte profile.
    ByteProfile = 30,
    // Bins are above the greys of the range.
    BinsAboveGreys = 31,
    // The list is too short.
    ListShort = 32,
    // The counts buffer is too short.
    CountsShort = 33,
    // A tile's counts do not add up to its pixels.
    CountsSum = 34,
    // The number is already stored.
    AlreadyStored = 35,
    // Eight films are stored.
    RoomFull = 36,
    // The free entries of the room are fewer than the set needs.
    RoomShort = 37,
    // The number is not stored.
    NotStored = 38,
    // The region's side is even, below 3 or above 63.
    RegionSide = 39,
    // The room record is none that store and drop made.
    RoomRecord = 40,
}

impl Refusal {
    // The number that the refusal is told by.
    pub fn number(self) -> u32
        ensures { result ≡ number_of self }
    {
        self as u32
    }
}

impl fmt::Display for Refusal {
    fn fmt<W: fmt::Write>(&self, f: &mut fmt::Formatter<W>) -> fmt::Result {
        write!(f, "refused {}", self.number())
    }
}

impl Error for Refusal {}
