// What E, L and `ln_1p` share, as document 01 gives it.

// ln 2 is near HI + LO. HI has so few digits that its product with a small whole number is exact.
pub const HI: f64 = 0.693147180369123816490;

pub const LO: f64 = 1.90821492927058770002e-10;

// ln 10.
pub const LN_10: f64 = 2.302585092994046;

// Up to it `ln_1p` takes the series at once: 1 + w would lose w's last digits.
pub const SERIES_MOST: f64 = 0.375;
