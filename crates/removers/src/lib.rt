#![tactic(auto)]

// No function: what a remove that has set its mark still has to see to.
