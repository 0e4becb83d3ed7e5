// The decision on a window: whether it is a jump or a re-reading, and what its searches say of the
// place.
#![tactic(auto)]

pub mod decide;
pub mod kinds;
pub mod verdict;
pub mod windows;
