// Values and times from a few numbers, so that a list of cases stays short. The driver in compare/
// makes the same ones.
ghost use Rattle.std.specs.Prelude.{ℕ, ◌≡◌, ◌/◌, ◌%◌, ◌<◌, Float, get_or, length};
ghost use Rattle.numbers_spec.specs.Rows.{tabulate};
ghost use Rattle.replays.specs.Sounds.{times_from, value_at};

// A value from 0 to 64, the same for the same two numbers: two steps of a generator by products.
pub fn value_at(seed: u64, n: u64) -> f32
    ensures { result ≡ value_at (seed % 131072) n }
{
    let first = (n % 1048576 + seed % 131072 * 7919) % 2147483648 * 1103515245 % 2147483648;
    let second = (first / 256 + first * 13) % 2147483648 * 69069 % 2147483648;
    let step = (second / 131072 % 4096) as f32;
    step * step / 262144.0
}

// Times from `start` on, a hop apart.
// Kept: start and hop, which a caller has as two numbers and puts together for nothing else.
pub fn fill_times(times: &mut [f64], start: f64, hop: f64)
    ensures { times.new ≡ times_from start hop (length times.old) }
{
    for i in 0..times.len() {
        times[i] = start + numbers::float::real(i) * hop;
    }
}

// Values band after band, n frames each: element i is what `at` makes of band i / n and its frame i % n.
pub fn fill_bands<F: Fn(usize, usize) -> f32>(values: &mut [f32], n: usize, at: F)
    requires some { 0 < n }
    requires callable { (i : ℕ) → i < length values.old → F.pre at (i / n) (i % n) }
    ensures each { (d : Float) (i : ℕ) → i < length values.old → F.post at (i / n) (i % n) (get_or values.new i d) }
    ensures bands { (f : ℕ → ℕ → Float) → ((i : ℕ) (x : Float) → i < length values.old → F.post at (i / n) (i % n) x → x ≡ f (i / n) (i % n)) → values.new ≡ tabulate (λ (i : ℕ). f (i / n) (i % n)) (length values.old) }
{
    for i in 0..values.len() {
        values[i] = at(i / n, i % n);
    }
}
