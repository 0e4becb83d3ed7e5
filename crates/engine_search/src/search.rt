// The searches of one window. Its query is filled once, and only where a search is made.
ghost use Rattle.std.specs.Prelude.{◌<◌, length, true, [], ◌≡◌, None, Some};
ghost use Rattle.engine_spec.specs.Windows.{endpoint_of, query};
ghost use Rattle.engine_spec.specs.Tracking.{may_coast, unsupported};
ghost use Rattle.engine_spec.specs.Locking.{is_due};
ghost use Rattle.engine_lock.specs.Views.{searched_in, tracked_in};
ghost use Rattle.engine_search.specs.Searching.{Filled, Works, evidence_of, near_of, searched_of, searched_with, tracked_of, whole_of};

use crate::kinds::Search;
use engine_lock::kinds::{Searched, Tracked, WholeSearch};
use engine_lock::rules::{is_due, locally_searched};
use engine_lock::track::{evidence, followed, may_coast, unsupported};
use engine_spec::lent::Window;
use engine_spec::thresholds::LOCAL_MS;
use engine_spec::types::{Hypothesis, RecordedMs};
use matcher::local::local_found;
use matcher::query::{Query, fill_query};
use matcher::whole::whole_found;
use matcher_picks::candidates::nothing_found;
use matcher_spec::lent::Features;
use matcher_spec::types::MatchResult;

// Kept: the working slices, with `Works` and `Filled` of them, in each method, see `Search`.
impl<'a> Search<'a> {
    // A local search for the track, if there is one that may still coast, then a whole search, if one
    // is granted and due.
    #[tactic(auto, unfolding(engine_spec::specs::Tracking::tracked))]
    pub fn searched(&self, work32: &mut [f32], work64: &mut [f64]) -> Searched
        requires work_room { Works self.now work32.old work64.old }
        ensures { searched_in result ≡ searched_of self.now }
    {
        match self.lock.accepted {
            Some(track) if may_coast(self.evidence(), track.last_evidence_ms) => {
                self.with_track(track, work32, work64)
            }
            _ => self.without_track(work32, work64),
        }
    }

    // With a track that may coast: the query serves the local search and the whole one.
    #[tactic(auto, unfolding(engine_spec::specs::Locking::searched, engine_spec::specs::Tracking::tracked))]
    fn with_track(&self, track: Hypothesis, work32: &mut [f32], work64: &mut [f64]) -> Searched
        requires work_room { Works self.now work32.old work64.old }
        requires held { self.now.lock.accepted ≡ Some track }
        requires coasts { may_coast (evidence_of self.now) track.last_evidence_ms ≡ true }
        ensures { searched_in result ≡ searched_of self.now }
    {
        let query = self.fill(work32, work64);
        let found = self.near(query, track, work32, work64);
        let t = followed(track, self.evidence(), found);
        if self.granted & self.is_due(t.supported) {
            return self.judged(query, t, work32, work64);
        }
        locally_searched(self.reached, self.lock, t)
    }

    // Without one: the query is filled if a whole search is made.
    #[tactic(auto, unfolding(engine_spec::specs::Locking::searched))]
    fn without_track(&self, work32: &mut [f32], work64: &mut [f64]) -> Searched
        requires work_room { Works self.now work32.old work64.old }
        requires untracked { unsupported None [] ≡ tracked_of self.now }
        ensures { searched_in result ≡ searched_of self.now }
    {
        let t = unsupported(None, nothing_found());
        if self.granted & self.is_due(false) {
            return self.judged(self.fill(work32, work64), t, work32, work64);
        }
        locally_searched(self.reached, self.lock, t)
    }

    // The window's evidence time.
    fn evidence(&self) -> RecordedMs
        ensures { result ≡ evidence_of self.now }
    {
        evidence(self.matcher.fine.reference.hop_ms, endpoint_of(self.window))
    }

    // Whether a whole search is due.
    fn is_due(&self, supported: bool) -> bool
        ensures { result ≡ is_due supported (endpoint_of self.now.window.now) self.now.lock.last_global_search_ms }
    {
        let last = self.lock.last_global_search_ms;
        is_due(supported, endpoint_of(self.window), last)
    }

    // Fills the query, and answers it.
    fn fill(&self, work32: &mut [f32], work64: &mut [f64]) -> Option<Query>
        requires work_room { Works self.now work32.old work64.old }
        ensures { Filled self.now result work32.new work64.new }
    {
        let reference = self.matcher.fine.reference;
        fill_query(reference, &features_of(self.window), work32, work64)
    }

    // The best place near the track by the window's query, which stays.
    fn near(
        &self,
        query: Option<Query>,
        track: Hypothesis,
        work32: &[f32],
        work64: &mut [f64],
    ) -> MatchResult
        requires work_room { Works self.now work32.now work64.old }
        requires filled_query { Filled self.now query work32.now work64.old }
        ensures value { result.items ≡ near_of self.now track }
        ensures filled_query { Filled self.now query work32.now work64.new }
    {
        let Some(query) = query else {
            return nothing_found();
        };
        local_found(
            query,
            &self.matcher.fine,
            track.offset_ms - LOCAL_MS,
            track.offset_ms + LOCAL_MS,
            work32,
            work64,
        )
    }

    // The candidates of the whole reference by the window's query.
    fn candidates(
        &self,
        query: Option<Query>,
        work32: &mut [f32],
        work64: &mut [f64],
    ) -> MatchResult
        requires work_room { Works self.now work32.old work64.old }
        requires filled_query { Filled self.now query work32.old work64.old }
        ensures { result.items ≡ whole_of self.now }
    {
        let Some(query) = query else {
            return nothing_found();
        };
        whole_found(query, &self.matcher, work32, work64)
    }

    // After tracking: a whole search by the window's query.
    fn judged(
        &self,
        query: Option<Query>,
        t: Tracked,
        work32: &mut [f32],
        work64: &mut [f64],
    ) -> Searched
        requires work_room { Works self.now work32.old work64.old }
        requires filled_query { Filled self.now query work32.old work64.old }
        ensures { searched_in result ≡ searched_with true self.now (tracked_in t) }
    {
        let search = WholeSearch {
            evidence: self.evidence(),
            endpoint: endpoint_of(self.window),
            reached: self.reached,
            pending: self.lock.pending,
            tracked: t,
            found: self.candidates(query, work32, work64),
        };
        search.judged(self.matcher.fine.reference.hop_ms)
    }
}

// The time of its last frame.
pub fn endpoint_of(window: &Window<'_>) -> RecordedMs
    requires { 0 < length window.now.times }
    ensures { result ≡ endpoint_of window.now }
{
    RecordedMs(window.times[window.times.len() - 1])
}

// The window as the matcher takes it.
fn features_of<'a>(window: &Window<'a>) -> Features<'a>
    ensures { result ≡ query window.now }
{
    Features {
        bands: window.bands,
        times: window.times,
        values: window.values,
    }
}
