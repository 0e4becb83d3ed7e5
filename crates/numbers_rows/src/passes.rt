// One pass over a row, of which each place is worked out by itself: a loop without a branch, if the
// closure has none.
ghost use Rattle.std.specs.Prelude.{ℕ, ◌<◌, ◌≡◌, true, false, get_or, length};
ghost use Rattle.numbers_spec.specs.Rows.{tabulate};

// Writes f(i) in each place i of out.
pub fn fill_by<T: Copy, F: Fn(usize) -> T>(out: &mut [T], f: F)
    requires { (k : ℕ) → k < length out.old → F.pre f k }
    ensures each { (d : T) (k : ℕ) → k < length out.old → F.post f k (get_or out.new k d) }
    ensures row { (g : ℕ → T) → ((k : ℕ) (x : T) → k < length out.old → F.post f k x → x ≡ g k) → out.new ≡ tabulate g (length out.old) }
{
    for i in 0..out.len() {
        out[i] = f(i);
    }
}

// Whether f(i) is true for each i below n. All are asked.
pub fn all_by<F: Fn(usize) -> bool>(n: usize, f: F) -> bool
    requires { (k : ℕ) → k < n → F.pre f k }
    ensures all { result ≡ true → (k : ℕ) → k < n → F.post f k true }
    ensures not_all { result ≡ false → (k : ℕ) × (k < n) × F.post f k false }
{
    let mut all = true;
    for i in 0..n {
        all &= f(i);
    }
    all
}
