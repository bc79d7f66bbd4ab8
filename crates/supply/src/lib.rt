#![tactic(auto)]

// No function: handles do not run out while fewer keys are present than the sizes promise.
