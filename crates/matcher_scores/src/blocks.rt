// What a band adds to the scores of a block of places, in passes over the block. Each pass is a plain
// loop over rows, which the compiler turns into vector instructions; each place keeps the Rust's
// operations in their order.
ghost use Rattle.std.specs.Prelude.{ℕ, ◌+◌, ◌<◌, ◌≤◌, get_or, length, ◌≡◌};
ghost use Rattle.std.specs.Float.{nan};
ghost use Rattle.numbers_spec.specs.Rows.{tabulate};
ghost use Rattle.matcher_scores.specs.Blocks.{block, term_of};
ghost use Rattle.numbers_spec.specs.Arithmetic.{◌⊕◌, ◌⊘◌};

use crate::bands::Pair;
use matcher_dots::tiles::{TILE, dots};
use numbers::float::widen;
use numbers_rows::passes::fill_by;
use numbers_rows::root_row::root_row;

// The most places of a block: few enough that the working rows stay in the nearest cache, and a
// whole number of tiles.
pub const BLOCK: usize = 120;

// The working rows of a block.
#[derive(Drop)]
pub struct Rows {
    dotted: [f32; BLOCK],
    products: [f64; BLOCK],
    roots: [f64; BLOCK],
}

impl Rows {
    pub fn new() -> Self {
        Rows {
            dotted: [0.0; BLOCK],
            products: [0.0; BLOCK],
            roots: [0.0; BLOCK],
        }
    }

    // Adds what a band adds to the scores of a block of places, the first of which is `at`. It may
    // work on more places than there are scores, so that they are a whole number of tiles.
    // Kept: `some_scores`, since a block of no places may lie behind the reference's end.
    pub fn add_block(&mut self, scores: &mut [f64], pair: &Pair<'_>, at: usize)
        requires some_scores { 0 < length scores.old }
        requires one_block { length scores.old ≤ block }
        requires within { at + length scores.old + length pair.now.query.now ≤ length pair.now.reference.now + 1 }
        ensures { scores.new ≡ tabulate (λ (i : ℕ). get_or scores.old i nan ⊕ term_of pair.now (at + i)) (length scores.old) }
    {
        let k = padded(scores.len(), at, pair.query.len(), pair.reference.len());
        let dotted = &mut self.dotted[..];
        let products = &mut self.products[..];
        let roots = &mut self.roots[..];
        fill_by(&mut products[..k], |i| pair.product(at + i));
        root_row(&mut roots[..k], &products[..k]);
        dots(&mut dotted[..k], &pair.reference[at..], pair.query);
        add_quotients(scores, dotted, roots);
    }
}

// m, or the next multiple of a tile where a row of `frames` has so many places from `at` on.
fn padded(m: usize, at: usize, count: usize, frames: usize) -> usize
    requires { (0 < m) × ((m ≤ block) × (at + m + count ≤ frames + 1)) }
    ensures { (m ≤ result) × (result ≤ block) × (at + result + count ≤ frames + 1) }
{
    let full = m.next_multiple_of(TILE);
    let spare = frames - (at + (m - 1) + count);
    if full - m <= spare { full } else { m }
}

// Adds each dot product over its root.
#[tactic(auto, using(crate::proofs::BlockLaws::fillings))]
fn add_quotients(scores: &mut [f64], dotted: &[f32], roots: &[f64])
    requires dots { length scores.old ≤ length dotted.now }
    requires roots { length scores.old ≤ length roots.now }
    ensures { scores.new ≡ tabulate (λ (i : ℕ). get_or scores.old i nan ⊕ (get_or dotted.now i nan ⊘ get_or roots.now i nan)) (length scores.old) }
{
    for i in 0..scores.len() {
        scores[i] = scores[i] + widen(dotted[i]) / roots[i];
    }
}
