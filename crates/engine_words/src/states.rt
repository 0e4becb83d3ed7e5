// A state as words.
ghost use Rattle.std.specs.Prelude.{◌≡◌, ◌+◌, ◌≤◌, drop, length};
ghost use Rattle.engine_spec.specs.Opening.{no_engine};
ghost use Rattle.engine_layout.specs.Layout.{configuration_of, engine_of, last_of, lock_of, settings_of, state_in};
ghost use Rattle.engine_layout.specs.Written.{ReadsBack, configuration_words, engine_words, last_words, lock_words, placed, settings_words, state_as_words};

use crate::snapshots::{LAYOUT, milestones_of, milestones_words, put_snapshot, snapshot_of};
use engine_layout::options::{hypothesis_of, hypothesis_words, option_of, tag, word_or_zero};
use engine_layout::rows::{part, put};
use engine_layout::word::Word;
use engine_spec::types::{Configuration, Engine, Last, Lock, RecordedMs, ReferenceMs, Settings};

// How many words a state takes, the layout number with them.
pub const STATE_WORDS: usize = 106;

// Kept: here and below slices of 106 words or more, as the C interface lends them.
pub fn write_state(words: &mut [u64], engine: Engine)
    requires { 106 ≤ length words.old }
    ensures words_after { state_in words.new ≡ engine }
    ensures tail { drop 106 words.new ≡ drop 106 words.old }
    ensures words { words.new ≡ placed 0 (state_as_words engine) words.old }
    ensures back { ReadsBack engine }
{
    put(words, 0, &[LAYOUT]);
    put_engine(words, engine);
}

// Words of another layout hold no engine.
#[tactic(auto, unfolding(engine_layout::specs::Layout::state_in))]
pub fn read_state(words: &[u64]) -> Engine
    requires { 106 ≤ length words.now }
    ensures { result ≡ state_in words.now }
{
    if words[0] == LAYOUT {
        return engine_of(part(words, 1));
    } else {
        return no_engine();
    }
}

// Zeros, and minus infinity as the time of the last whole search.
fn no_engine() -> Engine
    ensures { result ≡ no_engine }
{
    let mut words: [u64; 105] = [0; 105];
    words[19] = 0xfff0_0000_0000_0000;
    engine_of(&words)
}

fn put_engine(words: &mut [u64], e: Engine)
    requires { 106 ≤ length words.old }
    ensures words_after { words.new ≡ placed 1 (engine_words e) words.old }
    ensures back { engine_of (engine_words e) ≡ e }
{
    put(words, 1, &configuration_words(e.configuration));
    put(words, 6, &settings_words(e.settings));
    put_lock(words, 10, e.lock);
    put(words, 21, &milestones_words(e.milestones));
    put_last(words, 27, e.last);
}

#[tactic(auto, unfolding(engine_layout::specs::Layout::engine_of))]
fn engine_of(words: &[u64; 105]) -> Engine
    ensures { result ≡ engine_of words.now }
{
    Engine {
        configuration: configuration_of(part(words, 0)),
        settings: settings_of(part(words, 5)),
        lock: lock_of(part(words, 9)),
        milestones: milestones_of(part(words, 20)),
        last: last_of(part(words, 26)),
    }
}

// Kept: five numbers by name, as in engine_layout's `candidate_words`; what both share is `to_word`.
#[tactic(auto, unfolding(engine_layout::specs::Layout::configuration_of, engine_layout::specs::Written::configuration_words))]
fn configuration_words(c: Configuration) -> [u64; 5]
    ensures value { result ≡ configuration_words c }
    ensures back { configuration_of result ≡ c }
{
    [
        c.minimum_readiness_duration_ms.to_word(),
        c.tracking_query_duration_ms.to_word(),
        c.minimum_active_frame_energy_dbfs.to_word(),
        c.minimum_average_energy_dbfs.to_word(),
        c.minimum_active_frame_fraction.to_word(),
    ]
}

#[tactic(auto, unfolding(engine_layout::specs::Layout::configuration_of))]
fn configuration_of(words: &[u64; 5]) -> Configuration
    ensures { result ≡ configuration_of words.now }
{
    Configuration {
        minimum_readiness_duration_ms: f64::from_word(words[0]),
        tracking_query_duration_ms: f64::from_word(words[1]),
        minimum_active_frame_energy_dbfs: f64::from_word(words[2]),
        minimum_average_energy_dbfs: f64::from_word(words[3]),
        minimum_active_frame_fraction: f64::from_word(words[4]),
    }
}

#[tactic(auto, unfolding(engine_layout::specs::Layout::settings_of, engine_layout::specs::Written::settings_words))]
fn settings_words(s: Settings) -> [u64; 4]
    ensures value { result ≡ settings_words s }
    ensures back { settings_of result ≡ s }
{
    [
        s.hop_ms.to_word(),
        s.reference_frames.to_word(),
        s.reference_bands.to_word(),
        s.reference_start_ms.to_word(),
    ]
}

#[tactic(auto, unfolding(engine_layout::specs::Layout::settings_of))]
fn settings_of(words: &[u64; 4]) -> Settings
    ensures { result ≡ settings_of words.now }
{
    Settings {
        hop_ms: f64::from_word(words[0]),
        reference_frames: u16::from_word(words[1]),
        reference_bands: u16::from_word(words[2]),
        reference_start_ms: ReferenceMs::from_word(words[3]),
    }
}

fn put_lock(words: &mut [u64], at: usize, l: Lock)
    requires { at + 11 ≤ length words.old }
    ensures words_after { words.new ≡ placed at (lock_words l) words.old }
    ensures back { lock_of (lock_words l) ≡ l }
{
    put(words, at, &hypothesis_words(l.pending));
    put(words, at + 5, &hypothesis_words(l.accepted));
    put(words, at + 10, &[l.last_global_search_ms.to_word()]);
}

#[tactic(auto, unfolding(engine_layout::specs::Layout::lock_of))]
fn lock_of(words: &[u64; 11]) -> Lock
    ensures { result ≡ lock_of words.now }
{
    Lock {
        pending: hypothesis_of(part(words, 0)),
        accepted: hypothesis_of(part(words, 5)),
        last_global_search_ms: RecordedMs::from_word(words[10]),
    }
}

fn put_last(words: &mut [u64], at: usize, l: Last)
    requires { at + 79 ≤ length words.old }
    ensures words_after { words.new ≡ placed at (last_words l) words.old }
    ensures back { last_of (last_words l) ≡ l }
{
    let head = [
        tag(l.endpoint_ms),
        word_or_zero(l.endpoint_ms),
        l.has_snapshot.to_word(),
    ];
    put(words, at, &head);
    put_snapshot(words, at + 3, l.snapshot);
}

#[tactic(auto, unfolding(engine_layout::specs::Layout::last_of))]
fn last_of(words: &[u64; 79]) -> Last
    ensures { result ≡ last_of words.now }
{
    Last {
        endpoint_ms: option_of(words[0], words[1]),
        has_snapshot: bool::from_word(words[2]),
        snapshot: snapshot_of(part(words, 3)),
    }
}
