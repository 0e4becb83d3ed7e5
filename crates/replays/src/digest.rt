// One word for many: all of them, in order.
ghost use Rattle.std.specs.Prelude.{ℕ, ◌≡◌};
ghost use Rattle.std.specs.Float.{binary64};
ghost use Rattle.std.specs.Float.Ieee.{to_bits};
ghost use Rattle.replays.specs.Digests.{index_digest, with_all, with_word};

use matcher_spec::lent::Index;

// What a digest takes in as one word.
pub trait Word: Copy {
    ghost word: { Self → ℕ };

    fn word(self) -> u64
        ensures { result ≡ word self };
}

impl Word for u64 {
    ghost word = { λ n. n };

    fn word(self) -> u64 {
        self
    }
}

// A float's bit pattern. A NaN counts as one pattern.
impl Word for f64 {
    ghost word = { to_bits binary64 };

    fn word(self) -> u64 {
        std::num::f64_to_bits_with_nan(self)
    }
}

// As the f64 that it is.
impl Word for f32 {
    ghost word = { to_bits binary64 };

    fn word(self) -> u64 {
        numbers::float::widen(self).word()
    }
}

// The word so far, turned by 9 bits, and the next added.
fn with(word: u64, next: u64) -> u64
    ensures { result ≡ with_word word next }
{
    word.rotate_left(9).wrapping_add(next)
}

pub fn with_all<T: Word>(word: u64, list: &[T]) -> u64
    ensures { result ≡ with_all T.word word list.now }
{
    list.iter().fold(word, |all, x| with(all, x.word()))
}

// All of an index, as one word.
#[tactic(auto, unfolding(crate::specs::Digests::index_digest))]
pub fn digest_of_index(index: &Index<'_>) -> u64
    ensures { result ≡ index_digest index.now }
{
    let narrow = with_all(with_all(0, index.fine), index.coarse);
    with_all(with_all(narrow, index.fine_energy), index.coarse_energy)
}
