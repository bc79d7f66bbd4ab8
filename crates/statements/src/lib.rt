#![tactic(auto)]

// No function: what is said of every run from fresh, for a reader to believe.
