// Named places: what they give back, definitions in specs/, theorems over them in proofs/. No function
// stands here; the code is in crate places.
#![tactic(auto)]
