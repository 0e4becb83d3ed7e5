// The engine's types (types.rs, engine.rs). An array of 8 with a count stands for a `Vec` of
// candidates.
use matcher_spec::limits::CANDIDATES_MOST;

// ---- milliseconds, by what they are counted on: recorded sound, the reference, the clock
#[derive(Clone, Copy)]
pub struct RecordedMs(pub f64);

#[derive(Clone, Copy)]
pub struct ReferenceMs(pub f64);

#[derive(Clone, Copy)]
pub struct ClockMs(pub f64);

// ---- what opening is given
#[derive(Clone, Copy)]
pub struct Configuration {
    pub minimum_readiness_duration_ms: f64,
    pub tracking_query_duration_ms: f64,
    pub minimum_active_frame_energy_dbfs: f64,
    pub minimum_average_energy_dbfs: f64,
    pub minimum_active_frame_fraction: f64,
}

// ---- what an answer shows
#[derive(Clone, Copy, Debug, PartialEq, Eq)]
pub enum State {
    Ready,
    Listening,
    Locking,
    Confirmed,
    Locked,
    Drifting,
    Relocking,
    Lost,
    Failed,
}

#[derive(Clone, Copy, Debug, PartialEq, Eq)]
pub enum LockPhase {
    // Kept: a phase of sonalign's own enum, the one before any lock, not a missing value.
    None,
    Provisional,
    Confirmed,
    Final,
}

#[derive(Clone, Copy, Debug, PartialEq, Eq)]
pub enum Stage {
    Readiness,
    LandmarkCoarse,
    FastTimingVerify,
    RobustVerify,
    Tracking,
    Relock,
}

// Why no supported estimate is shown.
#[derive(Clone, Copy, Debug, PartialEq, Eq)]
pub enum WithholdReason {
    InsufficientDuration,
    InsufficientEnergy,
    InsufficientActiveFrames,
    InsufficientLandmarkEvidence,
    WeakAlignmentPeak,
    AmbiguousOffset,
    UnstableTrackingResidual,
    LostSignal,
    DecodeFailed,
    IndexUnavailable,
}

#[derive(Clone, Copy)]
pub struct Estimate {
    pub query_endpoint_recorded_time_ms: RecordedMs,
    pub reference_time_ms: ReferenceMs,
    pub offset_ms: f64,
}

#[derive(Clone, Copy, Default)]
pub struct SpectralDiagnostics {
    pub global_search: bool,
    pub correlation: f64,
    pub competing_peak_margin: Option<f64>,
    pub first_half_correlation: f64,
    pub second_half_correlation: f64,
    pub recent_correlation: f64,
    pub fresh_evidence_ms: f64,
    pub coast_ms: f64,
}

#[derive(Clone, Copy, Default)]
pub struct CandidateDiagnostics {
    pub offset_ms: f64,
    pub coarse_offset_ms: f64,
    pub comparable_frame_count: usize,
    pub coverage_ratio: f64,
    pub combined_dense_score: f64,
}

#[derive(Clone, Copy, Default)]
pub struct Diagnostics {
    pub query_duration_ms: f64,
    pub active_frame_fraction: f64,
    pub coarse_ambiguous: bool,
    pub dense_margin: f64,
    pub offset_stability_ms: Option<f64>,
    pub track_innovation_ms: Option<f64>,
    pub track_count: usize,
    pub offset_tracker_confirmed: bool,
    pub offset_tracker_stable: bool,
    // Kept: the words of a state have all eight, and what was handed in behind the last is given back.
    pub candidate_count: usize,
    pub candidates: [CandidateDiagnostics; CANDIDATES_MOST],
    pub spectral: SpectralDiagnostics,
}

#[derive(Clone, Copy)]
pub struct Snapshot {
    pub state: State,
    pub phase: LockPhase,
    pub stage: Stage,
    pub estimate: Option<Estimate>,
    pub withhold_reason: Option<WithholdReason>,
    pub confidence: f64,
    pub diagnostics: Diagnostics,
    pub first_provisional_lock_elapsed_ms: Option<ClockMs>,
    pub confirmed_lock_elapsed_ms: Option<ClockMs>,
    pub final_lock_elapsed_ms: Option<ClockMs>,
}

// ---- what a decision hands on
// Which milestones are there: all that a decision knows of them.
#[derive(Clone, Copy)]
pub struct Reached {
    pub provisional: bool,
    pub confirmed: bool,
    pub final_lock: bool,
}

// What is said of the place: the state, why nothing supported is shown, the offset shown, how far the
// local best lay from the track, and the coast.
#[derive(Clone, Copy)]
pub struct Verdict {
    pub state: State,
    pub reason: Option<WithholdReason>,
    pub offset: Option<f64>,
    pub innovation: Option<f64>,
    pub coast: f64,
}

// ---- the engine, nested by what changes together
// Fixed at opening. Without index both counts and the start are 0.
#[derive(Clone, Copy)]
pub struct Settings {
    pub hop_ms: f64,
    pub reference_frames: u16,
    pub reference_bands: u16,
    pub reference_start_ms: ReferenceMs,
}

// A place that sound speaks for.
#[derive(Clone, Copy)]
pub struct Hypothesis {
    pub offset_ms: f64,
    pub first_evidence_ms: RecordedMs,
    pub last_evidence_ms: RecordedMs,
    pub correlation: f64,
}

// What the lock rules carry from one computed answer to the next. The search time is minus
// infinity before the first whole search.
#[derive(Clone, Copy)]
pub struct Lock {
    pub pending: Option<Hypothesis>,
    pub accepted: Option<Hypothesis>,
    pub last_global_search_ms: RecordedMs,
}

// When the first passing search was answered, and the first end of a chain.
#[derive(Clone, Copy, Default)]
pub struct Milestones {
    pub first_provisional_ms: Option<ClockMs>,
    pub confirmed_ms: Option<ClockMs>,
    pub final_ms: Option<ClockMs>,
}

// The last computed window's endpoint and snapshot. Without `has_snapshot` the snapshot is none.
#[derive(Clone, Copy)]
pub struct Last {
    pub endpoint_ms: Option<RecordedMs>,
    // Kept: the words of a state without the flag are given back as handed in (the C interface),
    // which an Option would drop.
    pub has_snapshot: bool,
    pub snapshot: Snapshot,
}

#[derive(Clone, Copy)]
pub struct Engine {
    pub configuration: Configuration,
    pub settings: Settings,
    pub lock: Lock,
    pub milestones: Milestones,
    pub last: Last,
}

// ---- what the calls give back
// One case for each refusal; numbers stand in specs/Refusals.antt. The last three are of named
// places.
#[derive(Clone, Copy, Debug, PartialEq, Eq)]
pub enum Refusal {
    InvalidConfiguration,
    HopOutOfRange,
    ReferenceTooLarge,
    ReferenceMiscounted,
    ReferenceTimeTooFar,
    IndexTooShort,
    StateOutOfRange,
    ClockNotFinite,
    NoFrames,
    WindowTooLarge,
    WindowInvalid,
    WindowTimeOutOfRange,
    WorkTooShort,
    NameOutOfRange,
    StoreTooShort,
    NothingKept,
}

// How a window was answered that was not refused: computed, or the last snapshot shown again.
#[derive(Clone, Copy, Debug, PartialEq, Eq)]
pub enum AnswerKind {
    Computed,
    Reread,
}

// What a submission leaves that was not refused: how it was answered, the next engine, and what is
// shown.
#[derive(Clone, Copy)]
pub struct Submitted {
    // Kept: a kind of answer, with no case for a refusal or for nothing.
    pub answer: AnswerKind,
    pub engine: Engine,
    pub snapshot: Snapshot,
}
