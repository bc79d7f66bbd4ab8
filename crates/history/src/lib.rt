#![tactic(auto)]

// No function: every finished operation answers as the sequential map does.
