// Values that one word holds.
ghost use Rattle.std.specs.Prelude.{ℕ, ◌≡◌};
ghost use Rattle.engine_layout.specs.Layout.{bool_of, clock_of, count_of, float, phase_of, reason_of, recorded_of, reference_of, stage_of, state_of, word};
ghost use Rattle.engine_layout.specs.Written.{bool_word, clock_word, phase_word, reason_word, recorded_word, reference_word, stage_word, state_word};

use engine_spec::types::{
    ClockMs, LockPhase, RecordedMs, ReferenceMs, Stage, State, WithholdReason,
};
use std::num::{f64_from_bits_with_nan, f64_to_bits_with_nan};

// Every word is read as some value, and a value's word as the value.
pub trait Word: Copy {
    ghost word: { Self → ℕ };

    ghost of_word: { ℕ → Self };

    fn to_word(self) -> u64
        ensures value { result ≡ word self }
        ensures back { of_word result ≡ self };

    fn from_word(n: u64) -> Self
        ensures { result ≡ of_word n };
}

// The bit pattern; one fixed pattern for a NaN, and any NaN's pattern is read as the NaN.
#[tactic(auto, using(crate::proofs::Laws::read_back))]
impl Word for f64 {
    ghost word = { word };

    ghost of_word = { float };

    fn to_word(self) -> u64 {
        f64_to_bits_with_nan(self)
    }

    fn from_word(n: u64) -> f64 {
        f64_from_bits_with_nan(n)
    }
}

// Kept: one impl for each kind of milliseconds, since one type with a parameter for its kind would
// stand in every definition that has one.
impl Word for RecordedMs {
    ghost word = { recorded_word };

    ghost of_word = { recorded_of };

    fn to_word(self) -> u64 {
        self.0.to_word()
    }

    fn from_word(n: u64) -> RecordedMs {
        RecordedMs(f64::from_word(n))
    }
}

impl Word for ReferenceMs {
    ghost word = { reference_word };

    ghost of_word = { reference_of };

    fn to_word(self) -> u64 {
        self.0.to_word()
    }

    fn from_word(n: u64) -> ReferenceMs {
        ReferenceMs(f64::from_word(n))
    }
}

impl Word for ClockMs {
    ghost word = { clock_word };

    ghost of_word = { clock_of };

    fn to_word(self) -> u64 {
        self.0.to_word()
    }

    fn from_word(n: u64) -> ClockMs {
        ClockMs(f64::from_word(n))
    }
}

impl Word for usize {
    ghost word = { λ n. n };

    ghost of_word = { λ n. n };

    fn to_word(self) -> u64 {
        self as u64
    }

    fn from_word(n: u64) -> usize {
        n as usize
    }
}

// Of a word that is no `u16`, the lowest 16 bits are read.
impl Word for u16 {
    ghost word = { λ n. n };

    ghost of_word = { count_of };

    fn to_word(self) -> u64 {
        self as u64
    }

    fn from_word(n: u64) -> u16 {
        (n % 0x1_0000) as u16
    }
}

impl Word for bool {
    ghost word = { bool_word };

    ghost of_word = { bool_of };

    fn to_word(self) -> u64 {
        self as u64
    }

    fn from_word(n: u64) -> bool {
        n == 1
    }
}

// ---- an enum: a variant's place in its declaration, from 0; a number out of range reads as the last
// Kept: a match for each of the four. `Word` is the conversion; `From` would stand in engine_spec, which has no functions.
#[tactic(auto, unfolding(crate::specs::Layout::state_of, crate::specs::Written::state_word))]
impl Word for State {
    ghost word = { state_word };

    ghost of_word = { state_of };

    fn to_word(self) -> u64 {
        self as u64
    }

    fn from_word(n: u64) -> State {
        match n {
            0 => State::Ready,
            1 => State::Listening,
            2 => State::Locking,
            3 => State::Confirmed,
            4 => State::Locked,
            5 => State::Drifting,
            6 => State::Relocking,
            7 => State::Lost,
            _ => State::Failed,
        }
    }
}

#[tactic(auto, unfolding(crate::specs::Layout::phase_of, crate::specs::Written::phase_word))]
impl Word for LockPhase {
    ghost word = { phase_word };

    ghost of_word = { phase_of };

    fn to_word(self) -> u64 {
        self as u64
    }

    fn from_word(n: u64) -> LockPhase {
        match n {
            0 => LockPhase::None,
            1 => LockPhase::Provisional,
            2 => LockPhase::Confirmed,
            _ => LockPhase::Final,
        }
    }
}

#[tactic(auto, unfolding(crate::specs::Layout::stage_of, crate::specs::Written::stage_word))]
impl Word for Stage {
    ghost word = { stage_word };

    ghost of_word = { stage_of };

    fn to_word(self) -> u64 {
        self as u64
    }

    fn from_word(n: u64) -> Stage {
        match n {
            0 => Stage::Readiness,
            1 => Stage::LandmarkCoarse,
            2 => Stage::FastTimingVerify,
            3 => Stage::RobustVerify,
            4 => Stage::Tracking,
            _ => Stage::Relock,
        }
    }
}

// One word for a reason that may be missing: 0 where it is, so that reasons begin at 1.
#[tactic(auto, unfolding(crate::specs::Layout::reason_of, crate::specs::Written::reason_word))]
impl Word for Option<WithholdReason> {
    ghost word = { reason_word };

    ghost of_word = { reason_of };

    fn to_word(self) -> u64 {
        self.map_or(0, |r| 1 + r as u64)
    }

    fn from_word(n: u64) -> Option<WithholdReason> {
        match n {
            0 => None,
            1 => Some(WithholdReason::InsufficientDuration),
            2 => Some(WithholdReason::InsufficientEnergy),
            3 => Some(WithholdReason::InsufficientActiveFrames),
            4 => Some(WithholdReason::InsufficientLandmarkEvidence),
            5 => Some(WithholdReason::WeakAlignmentPeak),
            6 => Some(WithholdReason::AmbiguousOffset),
            7 => Some(WithholdReason::UnstableTrackingResidual),
            8 => Some(WithholdReason::LostSignal),
            9 => Some(WithholdReason::DecodeFailed),
            _ => Some(WithholdReason::IndexUnavailable),
        }
    }
}
