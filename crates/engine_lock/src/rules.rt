// The lock rules: pending, the end of a chain, and which milestones are there.
ghost use Rattle.std.specs.Prelude.{◌∷◌, ◌≡◌, drop};
ghost use Rattle.engine_spec.specs.Locking.{confirms, first_evidence, held_or_dropped, holds, is_due, kept_or_replaced, locally_searched, not_passed, passed, passing, whole_searched};
ghost use Rattle.engine_spec.specs.Milestones.{after_chain, after_passing};
ghost use Rattle.engine_spec.specs.Windows.{current};
ghost use Rattle.numbers_spec.specs.Arithmetic.{least};
ghost use Rattle.engine_lock.specs.Views.{searched_in, tracked_in};

use crate::kinds::{Searched, Tracked, WholeSearch};
use crate::track::is_same_place;
use engine_spec::thresholds::{
    CHAIN_MS, CHAIN_RECENT, PASSING_CORRELATION, PASSING_HALF, PASSING_MARGIN, SAME_PLACE_MS,
    SEARCH_INTERVAL_MS, STALE_MS, SUPPORTED_INTERVAL_MS,
};
use engine_spec::types::{Hypothesis, Lock, Reached, RecordedMs};
use matcher_picks::candidates::margin;
use matcher_spec::types::Candidate;
use numbers::float::{abs, at_most};

// Due 500 after the last whole search, or 2,000 where the window supports the track.
pub fn is_due(supported: bool, endpoint: RecordedMs, last: RecordedMs) -> bool
    ensures { result ≡ is_due supported endpoint last }
{
    if supported {
        return endpoint.0 - last.0 >= SUPPORTED_INTERVAL_MS;
    }
    endpoint.0 - last.0 >= SEARCH_INTERVAL_MS
}

// `x.min(y)`: a NaN beside a number is passed over.
fn least(x: f64, y: f64) -> f64
    ensures { result ≡ least x y }
{
    if y == y { at_most(y, x) } else { x }
}

// Whether a whole search passes, by its best candidate and its margin. Both halves have to reach
// 0.10, tested by the lesser of them, as the Rust does.
#[tactic(auto, unfolding(engine_spec::specs::Locking::passing))]
pub fn is_passing(found: &[Candidate]) -> bool
    ensures { result ≡ passing found.now }
{
    let [best, ..] = found else {
        return false;
    };
    (best.score >= PASSING_CORRELATION)
        & ((margin(found) >= PASSING_MARGIN)
            & (least(best.first_half_score, best.second_half_score) >= PASSING_HALF))
}

// Evidence that is not stale.
fn is_current(now: RecordedMs, last: RecordedMs) -> bool
    ensures { result ≡ current now last }
{
    now.0 - last.0 <= STALE_MS
}

// A passing search carries pending on, with its first evidence, where that is current and at the
// same place. Otherwise it starts anew.
#[tactic(auto, unfolding(engine_spec::specs::Locking::first_evidence))]
fn first_evidence(pending: Option<Hypothesis>, offset: f64, now: RecordedMs) -> RecordedMs
    ensures { result ≡ first_evidence pending offset now }
{
    pending
        .filter(|held| {
            is_same_place(held.offset_ms, offset) & is_current(now, held.last_evidence_ms)
        })
        .map_or(now, |held| held.first_evidence_ms)
}

// A search that does not pass holds pending where its best is at the same place, unambiguous, and
// pending current.
#[tactic(auto, unfolding(engine_spec::specs::Locking::holds))]
fn holds(offset: f64, last: RecordedMs, found: &[Candidate], now: RecordedMs) -> bool
    ensures { result ≡ holds offset last found.now now }
{
    let [best, ..] = found else {
        return false;
    };
    is_same_place(best.offset_ms, offset)
        & ((margin(found) >= PASSING_MARGIN) & is_current(now, last))
}

// Pending after a search that does not pass.
#[tactic(auto, unfolding(engine_spec::specs::Locking::held_or_dropped))]
fn held_or_dropped(
    pending: Option<Hypothesis>,
    found: &[Candidate],
    now: RecordedMs,
) -> Option<Hypothesis>
    ensures { result ≡ held_or_dropped pending found.now now }
{
    pending.filter(|held| holds(held.offset_ms, held.last_evidence_ms, found, now))
}

// The end of a chain: 1,000 less a hop of fresh evidence, and recent support.
#[tactic(auto, unfolding(engine_spec::specs::Locking::confirms))]
fn confirms(hop: f64, first: RecordedMs, now: RecordedMs, best: Candidate) -> bool
    ensures { result ≡ confirms hop first now best }
{
    (now.0 - first.0 >= CHAIN_MS - hop) & (best.recent_score >= CHAIN_RECENT)
}

// The track at the end of a chain: kept where the window supports it at the chain's place, else
// begun there.
#[tactic(auto, unfolding(engine_spec::specs::Locking::kept_or_replaced))]
fn kept_or_replaced(
    accepted: Option<Hypothesis>,
    supported: bool,
    best: Candidate,
    now: RecordedMs,
) -> Option<Hypothesis>
    ensures { result ≡ kept_or_replaced accepted supported best now }
{
    let begun = Some(Hypothesis {
        offset_ms: best.offset_ms,
        first_evidence_ms: now,
        last_evidence_ms: now,
        correlation: best.score,
    });
    let Some(track) = accepted else {
        return begun;
    };
    if (abs(track.offset_ms - best.offset_ms) > SAME_PLACE_MS) | !supported {
        begun
    } else {
        accepted
    }
}

// A passing search brings the first milestone.
fn after_passing(k: Reached) -> Reached
    ensures { result ≡ after_passing k }
{
    Reached {
        provisional: true,
        ..k
    }
}

// The end of a chain brings final, and confirmed with it. Where final was there, confirmed stays
// what it was.
fn after_chain(k: Reached) -> Reached
    ensures { result ≡ after_chain k }
{
    Reached {
        provisional: true,
        confirmed: !k.final_lock | k.confirmed,
        final_lock: true,
    }
}

impl WholeSearch {
    // What it leaves, whether it passes or not.
    #[tactic(auto, unfolding(engine_spec::specs::Locking::whole_searched))]
    pub fn judged(self, hop: f64) -> Searched
        ensures result_value { searched_in result ≡ whole_searched hop self.evidence self.endpoint self.reached self.pending (tracked_in self.tracked) self.found.items }
        ensures found_value { result.found ≡ self.found }
    {
        let best = match self.found.as_slice() {
            [best, ..] => *best,
            [] => return self.not_passed(),
        };
        if !is_passing(&self.found) {
            return self.not_passed();
        }
        self.passed(hop, best)
    }

    // What it leaves where it passes with this best.
    #[tactic(auto, unfolding(engine_spec::specs::Locking::passed))]
    fn passed(self, hop: f64, best: Candidate) -> Searched
        requires { self.found.items ≡ best ∷ drop 1 self.found.items }
        ensures result_value { searched_in result ≡ passed hop self.evidence self.endpoint self.reached (first_evidence self.pending best.offset_ms self.evidence) (tracked_in self.tracked) best (drop 1 self.found.items) }
        ensures found_value { result.found ≡ self.found }
    {
        let now = self.evidence;
        let t = self.tracked;
        let first = first_evidence(self.pending, best.offset_ms, now);
        let ends = confirms(hop, first, now, best);
        let pending = Some(Hypothesis {
            offset_ms: best.offset_ms,
            first_evidence_ms: first,
            last_evidence_ms: now,
            correlation: best.score,
        });
        let accepted = if ends {
            kept_or_replaced(t.accepted, t.supported, best, now)
        } else {
            t.accepted
        };
        Searched {
            lock: Lock {
                pending,
                accepted,
                last_global_search_ms: self.endpoint,
            },
            reached: if ends {
                after_chain(self.reached)
            } else {
                after_passing(self.reached)
            },
            global: true,
            found: self.found,
            supported: ends | t.supported,
            innovation: t.innovation,
        }
    }

    // What it leaves where it does not pass.
    fn not_passed(self) -> Searched
        ensures result_value { searched_in result ≡ not_passed self.evidence self.endpoint self.reached self.pending (tracked_in self.tracked) self.found.items }
        ensures found_value { result.found ≡ self.found }
    {
        Searched {
            lock: Lock {
                pending: held_or_dropped(self.pending, &self.found, self.evidence),
                accepted: self.tracked.accepted,
                last_global_search_ms: self.endpoint,
            },
            reached: self.reached,
            global: true,
            found: self.found,
            supported: self.tracked.supported,
            innovation: self.tracked.innovation,
        }
    }
}

// Without a whole search pending and the search time stay.
pub fn locally_searched(reached: Reached, lock: Lock, t: Tracked) -> Searched
    ensures result_value { searched_in result ≡ locally_searched reached lock (tracked_in t) }
    ensures found_value { result.found ≡ t.found }
{
    Searched {
        lock: Lock {
            accepted: t.accepted,
            ..lock
        },
        reached,
        global: false,
        found: t.found,
        supported: t.supported,
        innovation: t.innovation,
    }
}
