#![tactic(auto)]

// No function: the fact of publishers that every call keeps.
