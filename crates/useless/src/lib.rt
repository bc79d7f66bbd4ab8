#![tactic(auto)]

// No function: builds that the promise shuts out.
