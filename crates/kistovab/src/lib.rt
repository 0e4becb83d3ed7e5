// What a host written in C or Rust calls, by the names that crate kistovab_c gives to C. All that is
// kept between calls lies in slices that the host lends.
#![tactic(auto)]

pub mod calls;
pub mod codes;
pub mod loads;
pub mod sizes;
pub mod stores;
