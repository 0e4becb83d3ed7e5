// A snapshot as words.
ghost use Rattle.std.specs.Prelude.{◌≡◌, ◌+◌, ◌≤◌, drop, length};
ghost use Rattle.engine_spec.specs.Milestones.{milestones_shown};
ghost use Rattle.engine_layout.specs.Layout.{diagnostics_of, diagnostics_with, milestones_of, snapshot_in, snapshot_of, spectral_of};
ghost use Rattle.engine_layout.specs.Written.{diagnostics_numbers, diagnostics_words, milestones_words, placed, shown_words, spectral_words};

use engine_layout::candidates::{candidates_of, put_candidates};
use engine_layout::options::{estimate_of, estimate_words, option_of, tag, word_or_zero};
use engine_layout::rows::{part, put};
use engine_layout::word::Word;
use engine_spec::types::{
    CandidateDiagnostics, Diagnostics, LockPhase, Milestones, Snapshot, SpectralDiagnostics, Stage,
    State,
};
use matcher_spec::limits::CANDIDATES_MOST;

// The first word of what is written, and how many words a snapshot takes with it.
pub const LAYOUT: u64 = 1;

pub const SNAPSHOT_WORDS: usize = 77;

pub fn write_snapshot(words: &mut [u64], snapshot: Snapshot)
    requires { 77 ≤ length words.old }
    ensures words_after { snapshot_in words.new ≡ snapshot }
    ensures tail { drop 77 words.new ≡ drop 77 words.old }
{
    put(words, 0, &[LAYOUT]);
    put_snapshot(words, 1, snapshot);
}

pub fn read_snapshot(words: &[u64]) -> Snapshot
    requires { 77 ≤ length words.now }
    ensures { result ≡ snapshot_in words.now }
{
    snapshot_of(part(words, 1))
}

pub fn put_snapshot(words: &mut [u64], at: usize, s: Snapshot)
    requires { at + 76 ≤ length words.old }
    ensures words_after { words.new ≡ placed at (shown_words s) words.old }
    ensures back { snapshot_of (shown_words s) ≡ s }
{
    let kinds = [s.state.to_word(), s.phase.to_word(), s.stage.to_word()];
    put(words, at, &kinds);
    put(words, at + 3, &estimate_words(s.estimate));
    put(
        words,
        at + 7,
        &[s.withhold_reason.to_word(), s.confidence.to_word()],
    );
    put_diagnostics(words, at + 9, s.diagnostics);
    put(words, at + 70, &milestones_words(milestones_shown(s)));
}

#[tactic(auto, unfolding(engine_layout::specs::Layout::snapshot_of))]
pub fn snapshot_of(words: &[u64; 76]) -> Snapshot
    ensures { result ≡ snapshot_of words.now }
{
    let milestones = milestones_of(part(words, 70));
    Snapshot {
        state: State::from_word(words[0]),
        phase: LockPhase::from_word(words[1]),
        stage: Stage::from_word(words[2]),
        estimate: estimate_of(part(words, 3)),
        withhold_reason: Word::from_word(words[7]),
        confidence: f64::from_word(words[8]),
        diagnostics: diagnostics_of(part(words, 9)),
        first_provisional_lock_elapsed_ms: milestones.first_provisional_ms,
        confirmed_lock_elapsed_ms: milestones.confirmed_ms,
        final_lock_elapsed_ms: milestones.final_ms,
    }
}

// The milestones that a snapshot shows, as an engine holds them.
// Kept: engine_refusals has the same; to share three lines, a state's words would rest on what is
// refused.
fn milestones_shown(s: Snapshot) -> Milestones
    ensures { result ≡ milestones_shown s }
{
    Milestones {
        first_provisional_ms: s.first_provisional_lock_elapsed_ms,
        confirmed_ms: s.confirmed_lock_elapsed_ms,
        final_ms: s.final_lock_elapsed_ms,
    }
}

#[tactic(auto, unfolding(engine_layout::specs::Layout::milestones_of, engine_layout::specs::Written::milestones_words))]
pub fn milestones_words(m: Milestones) -> [u64; 6]
    ensures value { result ≡ milestones_words m }
    ensures back { milestones_of result ≡ m }
{
    [
        tag(m.first_provisional_ms),
        word_or_zero(m.first_provisional_ms),
        tag(m.confirmed_ms),
        word_or_zero(m.confirmed_ms),
        tag(m.final_ms),
        word_or_zero(m.final_ms),
    ]
}

#[tactic(auto, unfolding(engine_layout::specs::Layout::milestones_of))]
pub fn milestones_of(words: &[u64; 6]) -> Milestones
    ensures { result ≡ milestones_of words.now }
{
    Milestones {
        first_provisional_ms: option_of(words[0], words[1]),
        confirmed_ms: option_of(words[2], words[3]),
        final_ms: option_of(words[4], words[5]),
    }
}

fn put_diagnostics(words: &mut [u64], at: usize, d: Diagnostics)
    requires { at + 61 ≤ length words.old }
    ensures words_after { words.new ≡ placed at (diagnostics_words d) words.old }
    ensures back { diagnostics_of (diagnostics_words d) ≡ d }
{
    put(words, at, &diagnostics_words(d));
    put_candidates(words, at + 12, d.candidates);
    put(words, at + 52, &spectral_words(d.spectral));
}

#[tactic(auto, unfolding(engine_layout::specs::Layout::diagnostics_of))]
fn diagnostics_of(words: &[u64; 61]) -> Diagnostics
    ensures { result ≡ diagnostics_of words.now }
{
    let candidates = candidates_of(part(words, 12));
    let spectral = spectral_of(part(words, 52));
    diagnostics_with(part(words, 0), candidates, spectral)
}

// All but the candidates and what the spectral search found.
#[tactic(auto, unfolding(engine_layout::specs::Layout::diagnostics_with, engine_layout::specs::Written::diagnostics_numbers))]
fn diagnostics_words(d: Diagnostics) -> [u64; 12]
    ensures value { result ≡ diagnostics_numbers d }
    ensures back { diagnostics_with result d.candidates d.spectral ≡ d }
{
    [
        d.query_duration_ms.to_word(),
        d.active_frame_fraction.to_word(),
        d.coarse_ambiguous.to_word(),
        d.dense_margin.to_word(),
        tag(d.offset_stability_ms),
        word_or_zero(d.offset_stability_ms),
        tag(d.track_innovation_ms),
        word_or_zero(d.track_innovation_ms),
        d.track_count.to_word(),
        d.offset_tracker_confirmed.to_word(),
        d.offset_tracker_stable.to_word(),
        d.candidate_count.to_word(),
    ]
}

#[tactic(auto, unfolding(engine_layout::specs::Layout::diagnostics_with))]
fn diagnostics_with(
    words: &[u64; 12],
    candidates: [CandidateDiagnostics; CANDIDATES_MOST],
    spectral: SpectralDiagnostics,
) -> Diagnostics
    ensures { result ≡ diagnostics_with words.now candidates spectral }
{
    Diagnostics {
        query_duration_ms: f64::from_word(words[0]),
        active_frame_fraction: f64::from_word(words[1]),
        coarse_ambiguous: bool::from_word(words[2]),
        dense_margin: f64::from_word(words[3]),
        offset_stability_ms: option_of(words[4], words[5]),
        track_innovation_ms: option_of(words[6], words[7]),
        track_count: usize::from_word(words[8]),
        offset_tracker_confirmed: bool::from_word(words[9]),
        offset_tracker_stable: bool::from_word(words[10]),
        candidate_count: usize::from_word(words[11]),
        candidates,
        spectral,
    }
}

#[tactic(auto, unfolding(engine_layout::specs::Layout::spectral_of, engine_layout::specs::Written::spectral_words))]
fn spectral_words(s: SpectralDiagnostics) -> [u64; 9]
    ensures value { result ≡ spectral_words s }
    ensures back { spectral_of result ≡ s }
{
    [
        s.global_search.to_word(),
        s.correlation.to_word(),
        tag(s.competing_peak_margin),
        word_or_zero(s.competing_peak_margin),
        s.first_half_correlation.to_word(),
        s.second_half_correlation.to_word(),
        s.recent_correlation.to_word(),
        s.fresh_evidence_ms.to_word(),
        s.coast_ms.to_word(),
    ]
}

#[tactic(auto, unfolding(engine_layout::specs::Layout::spectral_of))]
fn spectral_of(words: &[u64; 9]) -> SpectralDiagnostics
    ensures { result ≡ spectral_of words.now }
{
    SpectralDiagnostics {
        global_search: bool::from_word(words[0]),
        correlation: f64::from_word(words[1]),
        competing_peak_margin: option_of(words[2], words[3]),
        first_half_correlation: f64::from_word(words[4]),
        second_half_correlation: f64::from_word(words[5]),
        recent_correlation: f64::from_word(words[6]),
        fresh_evidence_ms: f64::from_word(words[7]),
        coast_ms: f64::from_word(words[8]),
    }
}
