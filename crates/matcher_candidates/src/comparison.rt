// What a search compares: a reference and a query.
ghost use Rattle.std.specs.Prelude.{◌≡◌};
ghost use Rattle.matcher_spec.specs.Search.{QueryFits};

use matcher_spec::lent::Paired;
use matcher_spec::types::Reference;

// A reference, and its bands with those of a query that has a place in it; `start` is the time of
// the query's first frame.
// Kept: the reference and its bands are no `Fine`, which would ask callers for a hop within the
// limits and at least one band.
#[derive(Clone, Copy)]
pub struct Comparison<'a> {
    pub reference: Reference,
    pub bands: Paired<'a>,
    pub start: f64,
    ghost whole: { bands.reference.count ≡ reference.frames },
    ghost same_bands: { bands.reference.bands ≡ reference.bands },
    ghost fits: { QueryFits reference bands.query.count },
}
