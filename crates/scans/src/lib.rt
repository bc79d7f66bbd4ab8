#![tactic(auto)]

// No function: a scan is judged pair by pair.
