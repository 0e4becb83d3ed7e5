// One band of several, and a band of the reference with the query's.
ghost use Rattle.std.specs.Prelude.{suc, ◌+◌, ◌<◌, length, ◌≡◌};
ghost use Rattle.numbers_spec.specs.Rows.{row};

use matcher_spec::lent::Bands;
use numbers::float::at_least;

// A band's values, and their energies.
#[derive(Drop)]
pub struct Band<'a> {
    pub values: &'a [f32],
    pub energy: &'a [f64],
    ghost longer: { length values.now < length energy.now },
}

// Band b.
pub fn nth_band<'a>(bands: &Bands<'a>, b: usize) -> Band<'a>
    requires { b < bands.now.bands }
    ensures values { result.values.now ≡ row bands.now.count bands.now.values.now b }
    ensures energy { result.energy.now ≡ row (suc bands.now.count) bands.now.energy.now b }
    ensures count { length result.values.now ≡ bands.now.count }
{
    let n = bands.count;
    let at = b * n;
    let from = b * (n + 1);
    Band {
        values: &bands.values[at..at + n],
        energy: &bands.energy[from..from + (n + 1)],
    }
}

// A band of the reference and the query's, with what is the same at all places: the least that an
// energy counts as, and the query's whole energy.
#[derive(Drop)]
pub struct Pair<'a> {
    pub reference: &'a [f32],
    pub energy: &'a [f64],
    pub query: &'a [f32],
    pub floor: f64,
    pub whole: f64,
    ghost longer: { length reference.now < length energy.now },
}

impl<'a> Pair<'a> {
    ghost use Rattle.matcher_scores.specs.Blocks.{product_of};

    // What stands under the root at place i: the query's energy times the reference's over its frames.
    pub fn product(&self, i: usize) -> f64
        requires { i + length self.now.query.now < length self.now.energy.now }
        ensures { result ≡ product_of self.now i }
    {
        let end = i + self.query.len();
        self.whole * at_least(self.floor, self.energy[end] - self.energy[i])
    }
}
