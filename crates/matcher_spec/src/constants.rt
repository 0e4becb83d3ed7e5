// Numbers of the matcher; specs/ has them under the same names.
// Centring takes so many milliseconds before a frame and after it.
pub const CONTEXT_MS: f64 = 250.0;

// Candidates are so many milliseconds apart, or more.
pub const APART_MS: f64 = 750.0;

// The recent part of a query is its last so many milliseconds.
pub const RECENT_MS: f64 = 1000.0;
