#![tactic(auto)]

// No function: laws of tests, of lists and of the stages, in proofs/.
