// The dot product of two rows.
ghost use Rattle.std.specs.Prelude.{length, ◌≡◌};
ghost use Rattle.matcher_spec.specs.Scores.{dot};

use crate::sums::{add_each, total};

// Eight lanes over whole chunks of eight, the lanes added in order, then the remainder.
#[tactic(auto, unfolding(matcher_spec::specs::Scores::lane, matcher_spec::specs::Scores::dot), using(crate::proofs::DotLaws::lanes_added, crate::proofs::DotLaws::onward_none, crate::proofs::DotLaws::onward_more))]
pub fn dot_product(left: &[f32], right: &[f32]) -> f32
    requires { length left.now ≡ length right.now }
    ensures { result ≡ dot left.now right.now }
{
    let chunks = left.len() / 8;
    let mut lanes = [0.0f32; 8];
    for k in 0..chunks {
        add_each(&mut lanes, |j| left[k * 8 + j] * right[k * 8 + j]);
    }
    let mut sum = total(&lanes);
    for i in chunks * 8..left.len() {
        sum = sum + left[i] * right[i];
    }
    sum
}
