#![tactic(auto)]

// No function: the facts of the tables that every call keeps, and that each call keeps them.
