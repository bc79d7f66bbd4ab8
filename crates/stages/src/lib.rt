// What a step decides, stage by stage (document 01, "Stages of a task"): the task's row afterwards, what changes elsewhere, and the report.
#![tactic(auto)]

mod publish;

ghost use Rattle.std.specs.Prelude.{◌≡◌, ◌<◌};
ghost use Rattle.rules.specs.Stages.{decide};
ghost use Rattle.rows.specs.Seen.{seen};
ghost use Rattle.outcome.specs.Lengths.{Held};

use outcome::Read;
use rules::{Decision, Task};

// The step looks at each of the 24 stage numbers, for task number `n`.
#[tactic(auto, unfolding(rules::specs::Stages::stage_does))]
pub fn decide(s: &Read, n: usize, t: Task) -> Decision
    requires { Held s.now.lent.z t × (t.stage < 24) × (n < s.now.lent.z.tasks) }
    ensures { result ≡ decide s.now.lent.z (seen s.now.lent) n t }
{
    let lent = &s.lent;
    match t.stage {
        0 => outcome::stays(t),
        1 | 16 => seeking::locate(s, t),
        2 => seeking::find(lent, t),
        3 => seeking::read(lent, t),
        4 => changing::check(lent, t),
        5 => changing::apply(lent, t),
        6 => changing::take_entry(lent, t),
        7 => changing::link(lent, t),
        8 => changing::take_handle(lent.z, lent.tasks, lent.chunks, lent.entries, t),
        9 => changing::write(t),
        10..=12 => publish::insertion(lent, t),
        13..=15 => publish::absence(lent, t),
        17 => seeking::find_again(lent, t),
        18 => seeking::read_again(lent, t),
        19..=21 => publish::removal(lent, t),
        22 => scanning::scan(s, t),
        23 => scanning::scan_down(s, n, t),
        _ => outcome::stays(t),
    }
}
