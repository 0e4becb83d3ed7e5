// Keeping and restoring. All that is kept lies in the store, a slice of words that the host lends.
ghost use Rattle.std.specs.Prelude.{◌≤◌, OnOk, ◌≡◌, length};
ghost use Rattle.std.specs.Result.{result_err};
ghost use Rattle.engine_spec.specs.declared.types.Engine.{Engine};
ghost use Rattle.engine_layout.specs.Written.{ReadsBack};
ghost use Rattle.places_spec.specs.Places.{is_kept, is_name, keep_refusal, kept, place_in, place_start, places_most, restored, restored_or_refused, store_words};

use engine_layout::rows::part;
use engine_spec::types::{Engine, Refusal};
use engine_words::snapshots::LAYOUT;
use engine_words::states::{STATE_WORDS, read_state, write_state};

// How many names there are, and how many words a store takes: as many places of a state's words.
pub const PLACES_MOST: usize = 8;

pub const STORE_WORDS: usize = 848;

// Keeps the engine under the name. The store's other words stay; a refusal writes nothing.
#[tactic(auto, using(crate::proofs::StoreLaws::left_alone, crate::proofs::StoreLaws::put_back))]
pub fn keep(engine: Engine, name: usize, store: &mut [u64]) -> Result<(), Refusal>
    ensures value { result_err result ≡ keep_refusal name (length store.old) }
    ensures words { store.new ≡ kept engine name store.old }
    ensures back { OnOk result (ReadsBack engine) }
{
    check_keep(name, store.len())?;
    let at = place_start(name);
    write_state(&mut store[at..at + STATE_WORDS], engine);
    Ok(())
}

// Gives back what is kept under the name, whatever engine runs.
#[tactic(auto, using(crate::proofs::StoreLaws::empty, crate::proofs::StoreLaws::given))]
pub fn restore(name: usize, store: &[u64]) -> Result<Engine, Refusal>
    ensures { (running : Engine) → result ≡ restored_or_refused (restored running name store.now) }
{
    check_keep(name, store.len())?;
    let place = place_of(name, store);
    if !is_kept(place) {
        return Err(Refusal::NothingKept);
    }
    Ok(read_state(place))
}

// 14, then 6.
#[tactic(auto, unfolding(places_spec::specs::Places::keep_refusal))]
fn check_keep(name: usize, words: usize) -> Result<(), Refusal>
    ensures value { result_err result ≡ keep_refusal name words }
    ensures least { OnOk result (1 ≤ name) }
    ensures most { OnOk result (name ≤ places_most) }
    ensures long { OnOk result (store_words ≤ words) }
{
    if !is_name(name) {
        return Err(Refusal::NameOutOfRange);
    }
    if words < STORE_WORDS {
        return Err(Refusal::StoreTooShort);
    }
    Ok(())
}

fn is_name(name: usize) -> bool
    ensures { result ≡ is_name name }
{
    (1..=PLACES_MOST).contains(&name)
}

fn place_start(name: usize) -> usize
    requires least { 1 ≤ name }
    requires most { name ≤ places_most }
    ensures { result ≡ place_start name }
{
    (name - 1) * STATE_WORDS
}

fn place_of(name: usize, store: &[u64]) -> &[u64; STATE_WORDS]
    requires least { 1 ≤ name }
    requires most { name ≤ places_most }
    requires long { store_words ≤ length store.now }
    ensures { result.now ≡ place_in name store.now }
{
    part(store, place_start(name))
}

// Zeros keep nothing, nor do words of another layout.
fn is_kept(place: &[u64; STATE_WORDS]) -> bool
    ensures { result ≡ is_kept place.now }
{
    place[0] == LAYOUT
}
