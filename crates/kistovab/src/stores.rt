// The calls of named places: keep, restore. Words too short are answered first, and then nothing is
// written.
ghost use Rattle.std.specs.Prelude.{◌≡◌, length};
ghost use Rattle.engine_layout.specs.Layout.{state_in};
ghost use Rattle.engine_layout.specs.Written.{ReadsBack};
ghost use Rattle.places_spec.specs.Places.{restored, store_words};
ghost use Rattle.kistovab.specs.Stores.{Restores, keep_code, kept_after, restore_code};

use crate::codes::WORDS_TOO_SHORT;
use engine_refusals::refusals::number_of;
use engine_words::states::{STATE_WORDS, read_state, write_state};
use places::store::{STORE_WORDS, keep, restore};

pub fn kistovab_store_words() -> usize
    ensures { result ≡ store_words }
{
    STORE_WORDS
}

// A refusal leaves the store as it is.
// Kept: here and below words, and a number for a name, as the C interface has them; the header has these names.
#[tactic(auto, unfolding(crate::specs::Stores::keep_code, crate::specs::Stores::kept_after), using(crate::proofs::CallLaws::over))]
pub fn kistovab_keep(state: &[u64], name: usize, store: &mut [u64]) -> u32
    ensures value { result ≡ keep_code (length state.now) name (length store.old) }
    ensures words { store.new ≡ kept_after (length state.now) (state_in state.now) name store.old }
    ensures back { result ≡ 0 → ReadsBack (state_in state.now) }
{
    if state.len() < STATE_WORDS {
        return WORDS_TOO_SHORT;
    }
    match keep(read_state(state), name, store) {
        Ok(()) => 0,
        Err(refusal) => number_of(refusal),
    }
}

// A refusal leaves the state as it is.
#[tactic(auto, unfolding(crate::specs::Stores::restore_code), using(crate::proofs::CallLaws::over))]
pub fn kistovab_restore(state: &mut [u64], name: usize, store: &[u64]) -> u32
    ensures value { result ≡ restore_code (length state.old) (restored (state_in state.old) name store.now) }
    ensures words { Restores result (restored (state_in state.old) name store.now) state.old state.new }
{
    if state.len() < STATE_WORDS {
        return WORDS_TOO_SHORT;
    }
    match restore(name, store) {
        Ok(engine) => {
            write_state(state, engine);
            0
        }
        Err(refusal) => number_of(refusal),
    }
}
