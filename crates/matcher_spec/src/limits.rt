// The ranges that document 01 sets, as the code names them; specs/Limits.antt has the same names.
pub const HOP_LEAST: f64 = 1.0;

pub const HOP_MOST: f64 = 1000.0;

// Of a reference, and of a window.
pub const FRAMES_MOST: usize = 65535;

pub const WINDOW_MOST: usize = 1024;

// Of either.
pub const BANDS_MOST: usize = 64;

// No time lies further from 0,
pub const FARTHEST_MS: f64 = 1000000000000.0;

// and no number of a candidate, a track or an estimate.
pub const TRACK_MOST: f64 = 10000000000000.0;

// Of a search, and of a snapshot.
pub const CANDIDATES_MOST: usize = 8;
