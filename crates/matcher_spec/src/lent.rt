// What a search is lent, each with the record of the definitions that it stands for.
ghost use Rattle.std.specs.Prelude.{◌≡◌};
ghost use Rattle.matcher_spec.specs.Energy.{Holds};
ghost use Rattle.matcher_spec.specs.Features.{Features, features};
ghost use Rattle.matcher_spec.specs.Index.{Index, lent};
ghost use Rattle.matcher_spec.specs.Search.{InRange};

use crate::types::Reference;
use std::marker::Model;

// Bands band after band: `count` values each, and the energies of each, one more than it has values.
// Either slice may be longer.
#[derive(Clone, Copy)]
pub struct Bands<'a> {
    pub bands: usize,
    pub count: usize,
    pub values: &'a [f32],
    pub energy: &'a [f64],
    ghost holds: { Holds bands count values.now energy.now },
}

// Bands of a reference, and as many of a query.
// Kept: how few and how short they are is asked by who works out whole energies, and not by who
// scores a part.
#[derive(Clone, Copy)]
pub struct Paired<'a> {
    pub reference: Bands<'a>,
    pub query: Bands<'a>,
    ghost same_bands: { query.bands ≡ reference.bands },
}

// A time for each frame, and values band after band.
// Kept: who reads the values as bands asks that they are bands × times; `accepts_reference` and
// the tests of what is handed in ask no such thing.
#[derive(Drop)]
pub struct Features<'a> {
    pub bands: usize,
    pub times: &'a [f64],
    pub values: &'a [f32],
}

impl<'a> Model for Features<'a> {
    ghost Value = { Features };

    ghost view = { λ w. features w.bands w.times.now w.values.now };
}

// The four buffers of an index.
#[derive(Drop)]
pub struct Index<'a> {
    pub fine: &'a [f32],
    pub coarse: &'a [f32],
    pub fine_energy: &'a [f64],
    pub coarse_energy: &'a [f64],
}

impl<'a> Model for Index<'a> {
    ghost Value = { Index };

    ghost view = { λ x. lent x.fine.now x.coarse.now x.fine_energy.now x.coarse_energy.now };
}

// A reference within the limits and its bands as they are: the fine half of an index, which is all
// that a local search reads.
#[derive(Clone, Copy)]
pub struct Fine<'a> {
    pub reference: Reference,
    pub bands: Bands<'a>,
    ghost in_range: { InRange reference },
    ghost same_bands: { bands.bands ≡ reference.bands },
    ghost same_frames: { bands.count ≡ reference.frames },
}

// The matcher that an index holds: its fine half, and the bands averaged by fours.
#[derive(Drop)]
pub struct Matcher<'a> {
    pub fine: Fine<'a>,
    pub coarse: Bands<'a>,
}

impl<'a> Model for Matcher<'a> {
    ghost use Rattle.std.specs.Prelude.{◌/◌, ◌≡◌};
    ghost use Rattle.matcher_spec.specs.Energy.{reduction};
    ghost use Rattle.matcher_spec.specs.Index.{Matcher};
    ghost use Rattle.matcher_spec.specs.Lent.{bands_in};

    ghost Value = { Matcher };

    ghost view = { λ m. record { reference = m.fine.reference; fine = bands_in m.fine.bands; coarse = bands_in m.coarse } };

    ghost invariant = { λ m. (m.coarse.bands ≡ m.fine.reference.bands) × (m.coarse.count ≡ m.fine.reference.frames / reduction) };
}
