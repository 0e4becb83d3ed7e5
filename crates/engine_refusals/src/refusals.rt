// Refusals and their numbers.
ghost use Rattle.std.specs.Prelude.{◌≡◌};
ghost use Rattle.engine_spec.specs.Refusals.{number_of};

use engine_spec::types::Refusal;

// The number of document 01.
// Kept: two refusals have 6, and a `From` would have to stand in engine_spec, where no code stands.
#[tactic(auto, unfolding(engine_spec::specs::Refusals::number_of))]
pub fn number_of(r: Refusal) -> u32
    ensures { result ≡ number_of r }
{
    match r {
        Refusal::InvalidConfiguration => 1,
        Refusal::HopOutOfRange => 2,
        Refusal::ReferenceTooLarge => 3,
        Refusal::ReferenceMiscounted => 4,
        Refusal::ReferenceTimeTooFar => 5,
        Refusal::IndexTooShort => 6,
        Refusal::StateOutOfRange => 7,
        Refusal::ClockNotFinite => 8,
        Refusal::NoFrames => 9,
        Refusal::WindowTooLarge => 10,
        Refusal::WindowInvalid => 11,
        Refusal::WindowTimeOutOfRange => 12,
        Refusal::WorkTooShort => 13,
        Refusal::NameOutOfRange => 14,
        Refusal::StoreTooShort => 6,
        Refusal::NothingKept => 15,
    }
}
