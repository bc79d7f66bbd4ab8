#![tactic(auto)]

// No function: what the tables show is what the sequential map holds.
