// The columns of the rows, as FILMS.md lists them. The letter is column 0; a name stands for one column of each row that has it.
pub const LETTER: usize = 0;

pub const NO: usize = 1;

// Films; the width to the poked value are those of writes too, the film to the height those of draws.
pub const FILM: usize = 2;

pub const WIDTH: usize = 3;

pub const HEIGHT: usize = 4;

pub const KIND: usize = 5;

pub const LENGTH: usize = 6;

pub const LO: usize = 7;

pub const HI: usize = 8;

pub const SEED: usize = 9;

pub const POKE_AT: usize = 10;

pub const POKE_VALUE: usize = 11;

pub const ACROSS: usize = 12;

pub const DOWN: usize = 13;

pub const BINS: usize = 14;

pub const MIN: usize = 15;

pub const MAX: usize = 16;

pub const CLIP: usize = 17;

pub const FACTOR: usize = 18;

pub const MAP_ROOM: usize = 19;

pub const SCRATCH_ROOM: usize = 20;

pub const FILL_BASE: usize = 21;

pub const FILL_SPAN: usize = 22;

pub const LIST_ROOM: usize = 23;

pub const EDITION: usize = 24;

// Draws. The output's length stands where a film has the picture's, which is the output's length when it is drawn whole.
pub const CASE: usize = 5;

pub const OUT_ROOM: usize = 6;

pub const LEFT: usize = 7;

pub const TOP: usize = 8;

pub const FIELD: usize = 9;

pub const VALUE: usize = 10;

pub const PIXEL_AT: usize = 11;

pub const PIXEL_VALUE: usize = 12;

pub const MAP_AT: usize = 13;

pub const MAP_VALUE: usize = 14;

// Writes.
pub const MAXVAL: usize = 2;

pub const BYTES_ROOM: usize = 12;

pub const BACK_ROOM: usize = 13;

// Files, greys and listings: the length of the target, or of the listing's out, and the count of the bytes.
pub const ROOM: usize = 2;

pub const COUNT: usize = 3;

pub const FILE_BYTES: usize = 4;

// Greys.
pub const START: usize = 4;

pub const RASTER_WIDTH: usize = 5;

pub const RASTER_HEIGHT: usize = 6;

pub const RASTER_MAXVAL: usize = 7;

pub const RASTER_BYTES: usize = 8;
