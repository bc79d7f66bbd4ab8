#![tactic(auto)]

// No function: views of the tables as lists, and their laws.
