// Sums that stand side by side in vectors.
ghost use Rattle.std.specs.Prelude.{ℕ, ◌<◌, get_or, Float, fold, ◌≡◌};
ghost use Rattle.std.specs.Float.{nan};
ghost use Rattle.matcher_spec.specs.Energy.{zero_f32, ◌+₃₂◌};

// Adds to each sum its own term.
pub fn add_each<const N: usize, F: Fn(usize) -> f32>(sums: &mut [f32; N], term: F)
    requires { (p : ℕ) → p < N → F.pre term p }
    ensures { (p : ℕ) → p < N → (x : Float) × F.post term p x × (get_or sums.new p nan ≡ get_or sums.old p nan +₃₂ x) }
{
    for p in 0..N {
        sums[p] = sums[p] + term(p);
    }
}

// The values added in order.
pub fn total(values: &[f32]) -> f32
    ensures { result ≡ fold ◌+₃₂◌ zero_f32 values.now }
{
    values.iter().fold(0.0, |sum, v| sum + *v)
}
