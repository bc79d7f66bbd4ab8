#![tactic(auto)]

// The laws of the sequential ordered map stand in proofs/; there is no code.
