// The thresholds of the lock rules (engine.rs), as the code names them; specs/Thresholds.antt has
// the same names and says what each is for.
// ---- windows
pub const REREAD_MS: f64 = 90.0;

pub const TRIMMED_MS: f64 = 500.0;

// Decibels in a bel.
pub const TEN: f64 = 10.0;

// ---- the track
pub const COAST_MOST_MS: f64 = 1500.0;

pub const LOCAL_MS: f64 = 100.0;

pub const SAME_PLACE_MS: f64 = 80.0;

pub const SUPPORT_CORRELATION: f64 = 0.15;

pub const SUPPORT_RECENT: f64 = 0.12;

pub const GAIN_MS: f64 = 300.0;

// ---- whole searches
pub const SUPPORTED_INTERVAL_MS: f64 = 2000.0;

pub const SEARCH_INTERVAL_MS: f64 = 500.0;

pub const PASSING_CORRELATION: f64 = 0.25;

pub const PASSING_MARGIN: f64 = 0.06;

pub const PASSING_HALF: f64 = 0.1;

pub const STALE_MS: f64 = 2500.0;

// ---- the end of a chain
pub const CHAIN_MS: f64 = 1000.0;

pub const CHAIN_RECENT: f64 = 0.15;
