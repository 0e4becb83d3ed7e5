// The number functions, for Rust to call.
ghost use Rattle.std.specs.Float.Ieee.Scale.{finite};
ghost use Rattle.std.specs.Prelude.{◌≡◌};
ghost use Rattle.numbers_spec.specs.Exponential.{exp_of, ten_to};
ghost use Rattle.numbers_spec.specs.Logarithm.{log10_of, log1p_of, log_of};
ghost use Rattle.numbers_spec.specs.Narrow.{nearest_f32};
ghost use Rattle.numbers_spec.specs.Root.{root_of};
ghost use Rattle.numbers_spec.specs.Whole.{whole_above, whole_below, whole_nearest};

#[unsafe(no_mangle)]
pub extern "C" fn numbers_widen(x: f32) -> f64
    ensures { result ≡ x }
{
    numbers::float::widen(x)
}

#[unsafe(no_mangle)]
pub extern "C" fn numbers_is_finite(x: f64) -> bool
    ensures { result ≡ finite x }
{
    numbers::float::is_finite(x)
}

#[unsafe(no_mangle)]
pub extern "C" fn numbers_is_finite_f32(x: f32) -> bool
    ensures { result ≡ finite x }
{
    numbers::float::is_finite_f32(x)
}

#[unsafe(no_mangle)]
pub extern "C" fn numbers_narrow(x: f64) -> f32
    ensures { result ≡ nearest_f32 x }
{
    numbers::narrow::narrow(x)
}

#[unsafe(no_mangle)]
pub extern "C" fn numbers_round(x: f64) -> f64
    ensures { result ≡ whole_nearest x }
{
    numbers::whole::round(x)
}

#[unsafe(no_mangle)]
pub extern "C" fn numbers_floor(x: f64) -> f64
    ensures { result ≡ whole_below x }
{
    numbers::whole::floor(x)
}

#[unsafe(no_mangle)]
pub extern "C" fn numbers_ceil(x: f64) -> f64
    ensures { result ≡ whole_above x }
{
    numbers::whole::ceil(x)
}

#[unsafe(no_mangle)]
pub extern "C" fn numbers_root(x: f64) -> f64
    ensures { result ≡ root_of x }
{
    numbers::root::root(x)
}

#[unsafe(no_mangle)]
pub extern "C" fn numbers_exp(x: f64) -> f64
    ensures { result ≡ exp_of x }
{
    numbers::exponential::exp(x)
}

#[unsafe(no_mangle)]
pub extern "C" fn numbers_ten_to(x: f64) -> f64
    ensures { result ≡ ten_to x }
{
    numbers::exponential::ten_to(x)
}

#[unsafe(no_mangle)]
pub extern "C" fn numbers_ln(x: f64) -> f64
    ensures { result ≡ log_of x }
{
    numbers::logarithm::ln(x)
}

#[unsafe(no_mangle)]
pub extern "C" fn numbers_ln_1p(x: f32) -> f32
    ensures { result ≡ log1p_of x }
{
    numbers::logarithm::ln_1p(x)
}

#[unsafe(no_mangle)]
pub extern "C" fn numbers_log10(x: f64) -> f64
    ensures { result ≡ log10_of x }
{
    numbers::logarithm::log10(x)
}
