// A recorded session of the Rust that locks by a chain of several answers, worked out by the engine's
// definitions inside the checker: the session in specs/, the working out in proofs/, no code.

#![tactic(auto)]
