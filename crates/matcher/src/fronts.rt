// Bands at the fronts of buffers, of an index or of a query.
ghost use Rattle.std.specs.Prelude.{◌<◌, ◌≡◌};
ghost use Rattle.matcher_spec.specs.Energy.{Holds};
ghost use Rattle.matcher_spec.specs.Index.{lent_bands};
ghost use Rattle.matcher_spec.specs.Lent.{bands_in};

use matcher_spec::lent::Bands;

// The bands, with `count` values each, at the fronts of two buffers that may be longer.
pub fn front_bands<'a>(
    bands: usize,
    count: usize,
    values: &'a [f32],
    energy: &'a [f64],
) -> Bands<'a>
    requires some { 0 < bands }
    requires holds { Holds bands count values.now energy.now }
    ensures value { bands_in result ≡ lent_bands bands count values.now energy.now }
    ensures bands { result.bands ≡ bands }
    ensures count { result.count ≡ count }
{
    let end = bands * count;
    let stop = bands * (count + 1);
    Bands {
        bands,
        count,
        values: &values[..end],
        energy: &energy[..stop],
    }
}
