// The candidates as a snapshot shows them.
ghost use Rattle.std.specs.Prelude.{◌<◌, ◌≤◌, length, ◌≡◌};
ghost use Rattle.matcher_spec.specs.Limits.{candidates_most};
ghost use Rattle.engine_spec.specs.Publishing.{candidate_array, comparable_frames, coverage};
ghost use Rattle.engine_spec.specs.Windows.{duration};

use engine_spec::lent::Window;
use engine_spec::thresholds::TRIMMED_MS;
use engine_spec::types::CandidateDiagnostics;
use matcher_bands::centring::context_frames;
use matcher_spec::limits::CANDIDATES_MOST;
use matcher_spec::types::Candidate;
use numbers::float::at_least;
use numbers::whole::count;

// All candidates share the comparable frames and the coverage; behind the last stand blank ones.
#[tactic(auto, unfolding(engine_spec::specs::Publishing::candidates_shown), using(crate::proofs::ShownLaws::shown_more))]
pub fn candidate_array(
    comparable: usize,
    coverage: f64,
    found: &[Candidate],
) -> [CandidateDiagnostics; CANDIDATES_MOST]
    requires { length found.now ≤ candidates_most }
    ensures { result ≡ candidate_array comparable coverage found.now }
{
    let mut rows = [CandidateDiagnostics::default(); CANDIDATES_MOST];
    for (i, c) in found.iter().enumerate() {
        rows[i] = CandidateDiagnostics {
            offset_ms: c.offset_ms,
            coarse_offset_ms: c.offset_ms,
            comparable_frame_count: comparable,
            coverage_ratio: coverage,
            combined_dense_score: c.score,
        };
    }
    rows
}

// The window's frames less those that centring trims, here too without the floor of 1.
pub fn comparable_frames(hop: f64, window: &Window<'_>) -> usize
    ensures { result ≡ comparable_frames hop window.now }
{
    let trimmed = count(context_frames(hop));
    let rest = window.times.len().saturating_sub(trimmed);
    rest.saturating_sub(trimmed)
}

// The part of the window that centring leaves, by its duration.
// Kept: the fact, see `Window`.
pub fn coverage(window: &Window<'_>) -> f64
    requires { 0 < length window.now.times }
    ensures { result ≡ coverage window.now }
{
    let duration = duration_of(window);
    at_least(0.0, (duration - TRIMMED_MS) / at_least(1.0, duration))
}

// Its last time less its first.
pub fn duration_of(window: &Window<'_>) -> f64
    requires { 0 < length window.now.times }
    ensures { result ≡ duration window.now }
{
    window.times[window.times.len() - 1] - window.times[0]
}
