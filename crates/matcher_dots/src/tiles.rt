// The dot products of a row of places, a tile of 24 at a time: its places stand side by side in
// vectors, and each keeps the Rust's order of operations.
ghost use Rattle.std.specs.Prelude.{ℕ, ◌+◌, ◌*◌, ◌/◌, ◌<◌, ◌≤◌, drop, get_or, length, take, ◌≡◌};
ghost use Rattle.std.specs.Float.{nan};
ghost use Rattle.matcher_spec.specs.Energy.{◌+₃₂◌};
ghost use Rattle.numbers_spec.specs.Rows.{tabulate};
ghost use Rattle.matcher_spec.specs.Scores.{dot};
ghost use Rattle.matcher_dots.specs.Tiles.{lane_at, tile};

use crate::dot::dot_product;
use crate::sums::add_each;

// The places of a tile: as many as fill the vector registers (see `add_lanes`).
pub const TILE: usize = 24;

// The dot products at as many places as `out` has.
#[tactic(auto, using(numbers_spec::proofs::RowLaws::filling_none))]
pub fn dots(out: &mut [f32], row: &[f32], query: &[f32])
    requires { length out.old + length query.now ≤ length row.now + 1 }
    ensures { out.new ≡ tabulate (λ (i : ℕ). dot (take (length query.now) (drop i row.now)) query.now) (length out.old) }
{
    let tiles = out.len() / TILE;
    for t in 0..tiles {
        let at = t * TILE;
        let end = at + TILE;
        fill_tile(&mut out[at..end], &row[at..], query);
    }
    for at in tiles * TILE..out.len() {
        let end = at + query.len();
        out[at] = dot_product(&row[at..end], query);
    }
}

// The dot products at the row's first places, a tile of them.
#[tactic(auto, unfolding(numbers_spec::specs::Rows::tabulate), using(numbers_spec::proofs::PartLaws::row_at, crate::proofs::TileLaws::first_none, crate::proofs::TileLaws::first_more, crate::proofs::TileLaws::dot_begins))]
fn fill_tile(out: &mut [f32], row: &[f32], query: &[f32])
    requires one_tile { length out.old ≡ tile }
    requires within { length query.now + tile ≤ length row.now + 1 }
    ensures { out.new ≡ tabulate (λ (p : ℕ). dot (take (length query.now) (drop p row.now)) query.now) tile }
{
    let mut sums = [0.0f32; TILE];
    for pair in 0..4 {
        add_lanes(&mut sums, row, query, 2 * pair);
    }
    for i in query.len() / 8 * 8..query.len() {
        let w = query[i];
        add_each(&mut sums, |p| row[i + p] * w);
    }
    // Kept: `copy_from_slice` holds the sums in memory and takes 5 ns more a tile, of 130 at a query of 56.
    for p in 0..TILE {
        out[p] = sums[p];
    }
}

// Adds lanes j and j + 1 of the row's first places, a tile of them. Two at once make twelve vectors of sums: with
// two weights and two products they fill the sixteen registers.
#[tactic(auto, unfolding(numbers_spec::specs::Rows::tabulate, matcher_spec::specs::Scores::lane), using(numbers_spec::proofs::PartLaws::row_at))]
fn add_lanes(sums: &mut [f32; TILE], row: &[f32], query: &[f32], j: usize)
    requires within { length query.now + tile ≤ length row.now + 1 }
    requires lanes { j < 7 }
    ensures { (p : ℕ) → p < tile → get_or sums.new p nan ≡ get_or sums.old p nan +₃₂ lane_at row.now query.now p j (length query.now / 8) +₃₂ lane_at row.now query.now p (j + 1) (length query.now / 8) }
{
    // Kept: two rows by name, since an array of two asks for one more loop and an index into it.
    let mut even = [0.0f32; TILE];
    let mut odd = [0.0f32; TILE];
    for k in 0..query.len() / 8 {
        let i = k * 8 + j;
        let w = query[i];
        add_each(&mut even, |p| row[i + p] * w);
        let w = query[i + 1];
        add_each(&mut odd, |p| row[i + 1 + p] * w);
    }
    add_each(sums, |p| even[p]);
    add_each(sums, |p| odd[p]);
}
