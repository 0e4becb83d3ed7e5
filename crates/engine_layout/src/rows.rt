// Words copied into a lent slice, and read from it.
ghost use Rattle.std.specs.Prelude.{◌≡◌, ◌+◌, ◌≤◌, length};
ghost use Rattle.engine_layout.specs.Layout.{part};
ghost use Rattle.engine_layout.specs.Written.{placed};

// The words from `at` on are then those of `source`; all others stay.
pub fn put(words: &mut [u64], at: usize, source: &[u64])
    requires { at + length source.now ≤ length words.old }
    ensures { words.new ≡ placed at source.now words.old }
{
    words[at..at + source.len()].copy_from_slice(source);
}

// The N words from `at` on.
pub fn part<const N: usize>(words: &[u64], at: usize) -> &[u64; N]
    requires { at + N ≤ length words.now }
    ensures { result.now ≡ part at N words.now }
{
    words[at..at + N].as_array().unwrap()
}
