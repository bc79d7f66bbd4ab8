#![tactic(auto)]

// No function: facts of the handles that every call keeps.
