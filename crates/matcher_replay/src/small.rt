// A case within the limits of this program, whose arrays hold it.
ghost use Rattle.std.specs.Prelude.{◌≡◌, true, false, MatchOption};
ghost use Rattle.matcher_replay.specs.Agreement.{offset_of, reference_of};
ghost use Rattle.matcher_replay.specs.Cases.{Limits, case_of, is_small};

use crate::case::{Case, LINE};
use matcher_spec::types::Reference;

// The window's first time.
pub const BEGIN: f64 = 5000.0;

// What `is_small` tests is a fact of each.
#[derive(Clone, Copy)]
pub struct SmallCase {
    pub case: Case,
    ghost limits: { Limits case },
}

impl SmallCase {
    // The case that a line says, where it is within the limits.
    pub fn of(line: &[u8; LINE]) -> Option<SmallCase>
        ensures { MatchOption result (is_small (case_of line.now) ≡ false) (λ small. (small.case ≡ case_of line.now) × (is_small (case_of line.now) ≡ true)) }
    {
        let case = Case::of(line);
        if !case.is_small() {
            return None;
        }
        Some(SmallCase { case })
    }

    // The reference that is searched.
    pub fn reference(self) -> Reference
        ensures { result ≡ reference_of self.case }
    {
        Reference {
            bands: self.case.bands,
            frames: self.case.frames,
            start_ms: 0.0,
            hop_ms: self.case.hop,
        }
    }

    // The offset of the place that the window is cut out at.
    pub fn offset(self) -> f64
        ensures { result ≡ offset_of self.case }
    {
        numbers::float::real(self.case.from) * self.case.hop - BEGIN
    }
}
