// Fills a load.
ghost use Rattle.std.specs.Prelude.{◌≤◌, ◌≡◌, length};
ghost use Rattle.std.specs.Result.{result_err};
ghost use Rattle.numbers_spec.specs.Rows.{tabulate};
ghost use Rattle.matcher_spec.specs.Limits.{frames_most};
ghost use Rattle.engine_spec.specs.Lent.{window};
ghost use Rattle.workload_spec.specs.Draws.{step};
ghost use Rattle.workload_spec.specs.Load.{load_time, load_value, value_at};
ghost use Rattle.workload_spec.specs.Fill.{load_refusal, slices_after};

use crate::refusals::check_load;
use engine_spec::lent::Window;
use workload_spec::types::LoadRefusal;

// Of every frame.
const ENERGY: f64 = -20.0;

// Fills the slices from the seed, wholly; where it refuses, they are as they were.
// Kept: three slices, which are filled, and which the C call lends flat.
#[tactic(auto, using(crate::proofs::FillLaws::as_it_was))]
pub fn fill(
    seed: u64,
    hop: f64,
    bands: usize,
    times: &mut [f64],
    energies: &mut [f64],
    values: &mut [f32],
) -> Result<(), LoadRefusal>
    ensures value { result_err result ≡ load_refusal seed hop (window bands times.old energies.old values.old) }
    ensures slices { window bands times.new energies.new values.new ≡ slices_after seed hop (window bands times.old energies.old values.old) }
{
    let lent = Window {
        bands,
        times,
        energies,
        values,
    };
    check_load(seed, hop, &lent)?;
    fill_times(times, hop);
    energies.fill(ENERGY);
    fill_values(values, seed);
    Ok(())
}

// i * hop of each frame: one product, and no sum that would carry an error on. So few frames are
// floats as they are, which a plain cast takes quicker than `real` does any count.
#[tactic(auto, using(numbers_spec::proofs::RowLaws::filling_none, numbers_spec::proofs::RowLaws::filling_all))]
fn fill_times(times: &mut [f64], hop: f64)
    requires { length times.old ≤ frames_most }
    ensures { times.new ≡ tabulate (load_time hop) (length times.old) }
{
    for (i, time) in times.iter_mut().enumerate() {
        *time = i as f64 * hop;
    }
}

// A value for each number drawn, in the order of the slice: band after band.
#[tactic(auto, unfolding(workload_spec::specs::Draws::stepped), using(numbers_spec::proofs::RowLaws::filling_none, numbers_spec::proofs::RowLaws::filling_all))]
fn fill_values(values: &mut [f32], seed: u64)
    ensures { values.new ≡ tabulate (value_at seed) (length values.old) }
{
    let mut x = seed;
    for value in values.iter_mut() {
        let drawn = step(x);
        *value = value_of(drawn);
        x = drawn;
    }
}

// Marsaglia's xorshift, one step.
#[tactic(auto, unfolding(workload_spec::specs::Draws::step))]
fn step(x: u64) -> u64
    ensures { result ≡ step x }
{
    let a = x ^ (x << 13);
    let b = a ^ (a >> 7);
    b ^ (b << 17)
}

// (n mod 4,096) / 256: both are exact.
fn value_of(n: u64) -> f32
    ensures { result ≡ load_value n }
{
    (n % 4096) as f32 / 256.0
}
