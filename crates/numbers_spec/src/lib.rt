#![tactic(auto)]

// The numbers: definitions of each function and of lists, the laws of float arithmetic, and the
// theorems of rounding, root, E and L. Statements in specs/, proofs in proofs/, no code.
