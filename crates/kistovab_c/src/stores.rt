// The calls of named places: keep, restore. Words too short are answered first, and then nothing is
// written.
ghost use Rattle.std.specs.Prelude.{◌≡◌, length};
ghost use Rattle.engine_layout.specs.Layout.{state_in};
ghost use Rattle.engine_layout.specs.Written.{ReadsBack};
ghost use Rattle.places_spec.specs.Places.{restored, store_words};
ghost use Rattle.kistovab.specs.Stores.{Restores, keep_code, kept_after, restore_code};

#[unsafe(no_mangle)]
pub extern "C" fn kistovab_store_words() -> usize
    ensures { result ≡ store_words }
{
    kistovab::stores::kistovab_store_words()
}

// A refusal leaves the store as it is.
// Kept: here and below words, and a number for a name, as the C interface has them; the header has these names.
#[unsafe(no_mangle)]
pub extern "C" fn kistovab_keep(state: &[u64], name: usize, store: &mut [u64]) -> u32
    ensures value { result ≡ keep_code (length state.now) name (length store.old) }
    ensures words { store.new ≡ kept_after (length state.now) (state_in state.now) name store.old }
    ensures back { result ≡ 0 → ReadsBack (state_in state.now) }
{
    kistovab::stores::kistovab_keep(state, name, store)
}

// A refusal leaves the state as it is.
#[unsafe(no_mangle)]
pub extern "C" fn kistovab_restore(state: &mut [u64], name: usize, store: &[u64]) -> u32
    ensures value { result ≡ restore_code (length state.old) (restored (state_in state.old) name store.now) }
    ensures words { Restores result (restored (state_in state.old) name store.now) state.old state.new }
{
    kistovab::stores::kistovab_restore(state, name, store)
}
