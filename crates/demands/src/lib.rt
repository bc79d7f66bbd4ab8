#![tactic(auto)]

// No function: the three demands, stated in one file, and that they hold.
