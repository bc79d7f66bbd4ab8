// Stages 22 and 23: the scans, upward and from the top key down (document 01, "Stages of a task"; document 02, E1).
#![tactic(auto)]

mod down;
mod up;

pub use down::scan_down;
pub use up::scan;
