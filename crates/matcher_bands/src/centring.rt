// Logs of a band, less their mean over the frames around each. Logs and sums stand in the buffers
// that are filled in the end, so that nothing else is needed.
ghost use Rattle.std.specs.Prelude.{ℕ, ◌+◌, ◌-◌, ◌*◌, ◌<◌, ◌≤◌, drop, get_or, length, take, ◌++◌, ◌≡◌};
ghost use Rattle.std.specs.Float.{binary32, nan};
ghost use Rattle.std.specs.Float.Ieee.{sub};
ghost use Rattle.matcher_bands.specs.Centring.{last_or, prefix_sums};
ghost use Rattle.matcher_spec.specs.Centring.{centred, centred_at, context_frames, radius, radius_most};
ghost use Rattle.numbers_spec.specs.Narrow.{nearest_f32};
ghost use Rattle.numbers_spec.specs.Rows.{logs_of, row, rows, tabulate};

use crate::rows::fill_sums;
use matcher_spec::constants::CONTEXT_MS;
use numbers::float::{at_least, real, widen};
use numbers::whole::{count, round};
use numbers_rows::ln_1p_row::{BLOCK, ln_1p_row};
use numbers_rows::narrow_row::narrow_row;
use numbers_rows::passes::fill_by;

// 250 ms in frames, rounded: 0 at a hop above 500.
#[tactic(auto, unfolding(matcher_spec::specs::Centring::context_frames))]
pub fn context_frames(hop: f64) -> f64
    ensures { result ≡ context_frames hop }
{
    round(CONTEXT_MS / hop)
}

// The radius: 250 ms in frames, at least 1.
#[tactic(auto, unfolding(matcher_spec::specs::Centring::radius))]
pub fn radius(hop: f64) -> usize
    ensures { result ≡ radius hop }
{
    count(at_least(1.0, context_frames(hop)))
}

// What the means of a row are made of: its prefix sums, the values at its ends, which stand in for
// what lies past them, and the radius.
#[derive(Clone, Copy)]
struct Smoothing<'a> {
    sums: &'a [f64],
    first: f32,
    last: f32,
    radius: usize,
    ghost small: { radius ≤ radius_most },
}

impl<'a> Smoothing<'a> {
    ghost use Rattle.matcher_bands.specs.Smoothed.{mean_at};

    // The mean over the frames around i where they lie within the row, as nearly all do. No value is
    // repeated here, and what that adds is the same for each i.
    #[tactic(auto, using(crate::proofs::CentringLaws::inside))]
    fn mean_inside(&self, i: usize) -> f64
        requires before { self.now.radius ≤ i }
        requires after { i + self.now.radius + 1 < length self.now.sums.now }
        ensures { result ≡ mean_at self.now i }
    {
        let sum = self.sums[i + self.radius + 1] - self.sums[i - self.radius];
        let before = real(0) * widen(self.first);
        let after = real(0) * widen(self.last);
        (sum + before + after) / real(2 * self.radius + 1)
    }

    // The mean over the frames around i where they may reach past an end.
    #[tactic(auto, unfolding(crate::specs::Centring::wide_mean))]
    fn mean_at_end(&self, i: usize) -> f64
        requires { i + 1 < length self.now.sums.now }
        ensures { result ≡ mean_at self.now i }
    {
        let n = self.sums.len() - 1;
        let past = i + self.radius + 1;
        let sum = self.sums[n.min(past)] - self.sums[i.saturating_sub(self.radius)];
        let before = real(self.radius.saturating_sub(i)) * widen(self.first);
        let after = real(past.saturating_sub(n)) * widen(self.last);
        (sum + before + after) / real(2 * self.radius + 1)
    }

    // Fills the row with the means over the frames around i, i + 1, .. Where no frame lies past an end
    // the pass has no branch, so that it becomes vector code.
    fn fill_means(&self, wide: &mut [f64], i: usize)
        requires { i + length wide.old < length self.now.sums.now }
        ensures { wide.new ≡ tabulate (λ (k : ℕ). mean_at self.now (i + k)) (length wide.old) }
    {
        if self.radius <= i && i + wide.len() + self.radius < self.sums.len() {
            fill_by(wide, |k| self.mean_inside(i + k));
        } else {
            fill_by(wide, |k| self.mean_at_end(i + k));
        }
    }

    // Replaces values at the row's front, as many as fill the two rows in which the means are worked
    // out: place k gets the value `from` places later, less the mean around frame i + k.
    fn centre_block(
        &self,
        row: &mut [f32],
        from: usize,
        i: usize,
        wide: &mut [f64],
        means: &mut [f32],
    )
        requires same_size { length means.old ≡ length wide.old }
        requires row_room { from + length wide.old ≤ length row.old }
        requires within { i + length wide.old < length self.now.sums.now }
        ensures { row.new ≡ tabulate (λ (k : ℕ). sub binary32 (get_or row.old (from + k) nan) (nearest_f32 (mean_at self.now (i + k)))) (length wide.old) ++ drop (length wide.old) row.old }
    {
        self.fill_means(wide, i);
        narrow_row(means, wide);
        take_off(row, means, from);
    }

    // The same of `count` values, a block at a time: place i gets the value of frame `from` + i, less
    // the mean around it.
    fn centre(&self, row: &mut [f32], from: usize, count: usize)
        requires row_room { from + count ≤ length row.old }
        requires within { length self.now.sums.now ≡ length row.old + 1 }
        ensures { row.new ≡ tabulate (λ (i : ℕ). sub binary32 (get_or row.old (from + i) nan) (nearest_f32 (mean_at self.now (from + i)))) count ++ drop count row.old }
    {
        let mut wide = [0.0f64; BLOCK];
        let mut means = [0.0f32; BLOCK];
        for block in 0..count.div_ceil(BLOCK) {
            let at = block * BLOCK;
            let n = BLOCK.min(count - at);
            self.centre_block(
                &mut row[at..],
                from,
                from + at,
                &mut wide[..n],
                &mut means[..n],
            );
        }
    }
}

// Replaces values at the row's front, as many as there are means: place k gets the value `from`
// places later, less mean k.
fn take_off(row: &mut [f32], means: &[f32], from: usize)
    requires { from + length means.now ≤ length row.old }
    ensures { row.new ≡ tabulate (λ (k : ℕ). sub binary32 (get_or row.old (from + k) nan) (get_or means.now k nan)) (length means.now) ++ drop (length means.now) row.old }
{
    for k in 0..means.len() {
        row[k] = row[from + k] - means[k];
    }
}

// How bands of `frames` frames are centred: `count` frames of each, from `from` on, less the means
// over the frames up to `radius` away.
#[derive(Clone, Copy)]
pub struct Centring {
    pub frames: usize,
    pub radius: usize,
    pub from: usize,
    pub count: usize,
    ghost some: { 0 < frames },
    ghost small: { radius ≤ radius_most },
    ghost within: { from + count ≤ frames },
}

// Centres a row of logs: those frames of it that are asked for, at the row's front. The other logs
// stay, and `sums` holds the prefix sums of all.
fn centre_band(row: &mut [f32], sums: &mut [f64], centring: Centring)
    requires one_sum_more { length sums.old ≡ length row.old + 1 }
    requires size { length row.old ≡ centring.frames }
    ensures row_after { row.new ≡ tabulate (λ (i : ℕ). centred_at centring.radius row.old (centring.from + i)) centring.count ++ drop centring.count row.old }
    ensures sums_after { sums.new ≡ prefix_sums row.old }
{
    fill_sums(sums, row, |v| v);
    let smoothing = Smoothing {
        sums,
        first: row[0],
        last: row[row.len() - 1],
        radius: centring.radius,
    };
    smoothing.centre(row, centring.from, centring.count);
}

// Takes the logs of each band and centres them, band after band. A band is worked out in the
// `frames` places from its own start on, so the next one's follows at once, and the last is followed
// by those of its logs that no frame replaced.
// Kept: values and bands, as the functions of energy.rt take them.
pub fn centre_bands(
    out: &mut [f32],
    sums: &mut [f64],
    values: &[f32],
    bands: usize,
    centring: Centring,
)
    requires values_room { bands * centring.frames ≤ length values.now }
    requires out_room { bands * centring.count + (centring.frames - centring.count) ≤ length out.old }
    requires one_sum_more { length sums.old ≡ centring.frames + 1 }
    ensures out_after { take (bands * centring.count) out.new ≡ rows (λ (b : ℕ). take centring.count (drop centring.from (centred centring.radius (row centring.frames values.now b)))) bands }
    ensures out_after_2 { take (centring.frames - centring.count) (drop (bands * centring.count) out.new) ≡ last_or (take (centring.frames - centring.count) out.old) (λ (b : ℕ). drop centring.count (logs_of (row centring.frames values.now b))) bands }
    ensures out_unchanged { drop (bands * centring.count + (centring.frames - centring.count)) out.new ≡ drop (bands * centring.count + (centring.frames - centring.count)) out.old }
    ensures sums_after { sums.new ≡ last_or sums.old (λ (b : ℕ). prefix_sums (logs_of (row centring.frames values.now b))) bands }
{
    let frames = centring.frames;
    for b in 0..bands {
        let at = b * centring.count;
        let start = b * frames;
        let band = &mut out[at..at + frames];
        ln_1p_row(band, &values[start..start + frames]);
        centre_band(band, sums, centring);
    }
}
