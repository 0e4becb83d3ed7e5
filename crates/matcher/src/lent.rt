// What the searches read of an index whose buffers hold it at their fronts.
ghost use Rattle.std.specs.Prelude.{◌/◌, ◌≡◌};
ghost use Rattle.matcher_spec.specs.Energy.{Holds};
ghost use Rattle.matcher_spec.specs.Index.{lent_bands, lent_matcher};
ghost use Rattle.matcher_spec.specs.Lent.{bands_in};
ghost use Rattle.matcher_spec.specs.Search.{InRange};

use crate::fronts::front_bands;
use matcher_spec::lent::{Fine, Index, Matcher};
use matcher_spec::types::Reference;

// A reference with its bands, which stand at the fronts of two buffers.
// Kept: `InRange` is asked where a `Fine` is made, and by `fill_query`, which has no bands to hand over.
pub fn lent_fine<'a>(reference: Reference, values: &'a [f32], energy: &'a [f64]) -> Fine<'a>
    requires in_range { InRange reference }
    requires holds { Holds reference.bands reference.frames values.now energy.now }
    ensures reference { result.reference ≡ reference }
    ensures bands { bands_in result.bands ≡ lent_bands reference.bands reference.frames values.now energy.now }
{
    Fine {
        reference,
        bands: front_bands(reference.bands, reference.frames, values, energy),
    }
}

// The matcher that an index holds.
pub fn lent_matcher<'a>(reference: Reference, index: &Index<'a>) -> Matcher<'a>
    requires in_range { InRange reference }
    requires fine_holds { Holds reference.bands reference.frames index.now.fine index.now.fine_energy }
    requires coarse_holds { Holds reference.bands (reference.frames / 4) index.now.coarse index.now.coarse_energy }
    ensures { result ≡ lent_matcher reference index.now }
{
    Matcher {
        fine: lent_fine(reference, index.fine, index.fine_energy),
        coarse: front_bands(
            reference.bands,
            reference.frames / 4,
            index.coarse,
            index.coarse_energy,
        ),
    }
}
