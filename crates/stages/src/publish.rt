// The three groups of publish, swap and unpublish: stages 10 to 12, 13 to 15, 19 to 21.
ghost use Rattle.std.specs.Prelude.{◌≡◌, ℕ, List, ◌<◌, ◌≤◌};
ghost use Rattle.rules.specs.declared.Sizes.{Sizes};
ghost use Rattle.rules.specs.Tables.{Tables};
ghost use Rattle.rules.specs.Stages.{decide, publishes, swaps, ends_insertion, ends_absent};
ghost use Rattle.rows.specs.Rows.{tables};
ghost use Rattle.outcome.specs.Lengths.{Holds, Held};

use outcome::{finishes, finishes_absent, gives_back, moves, restarts, seeks_again};
use rows::Lent;
use rules::{Chunk, Decision, Entry, HandleNo, NONE, Operation, Report, Task, Write};

// 10, 13, 19 publish
pub fn publish(s: &Lent, t: Task) -> Decision
    requires { t.stage < 22 }
    ensures { (d ts es vs ms : List ℕ) → result ≡ publishes s.now.z (tables s.now.z d ts s.now.chunks.now es vs ms) t }
{
    if rows::chunk_at(s.z, s.chunks, t.chunk).frozen == 0 {
        let published = Task {
            stage: t.stage + 1,
            published: 1,
            swapped: 0,
            ..t
        };
        return moves(published, Write::Nothing);
    }
    if t.stage == 19 {
        return moves(seeks_again(t), Write::Nothing);
    }
    restarts(t, Report::Frozen)
}

// 11, 14, 20 swap
pub fn swap(s: &Lent, t: Task, h: HandleNo) -> Decision
    requires { Holds s.now.z t × (t.stage < 22) }
    ensures { (d ts cs vs ms : List ℕ) → result ≡ swaps s.now.z (tables s.now.z d ts cs s.now.entries.now vs ms) t h }
{
    let stage = t.stage + 1;
    if rows::entry_at(s.z, s.entries, t.chunk, t.entry).handle != t.old {
        return moves(Task { stage, ..t }, Write::Nothing);
    }
    let swapped = Task {
        stage,
        published: 1,
        swapped: u64::from(t.stage != 20),
        ..t
    };
    moves(swapped, Write::Name(t.chunk, t.entry, h))
}

// 12 unpublish: the key was absent, so a put has replaced nothing
pub fn end_insertion(t: Task) -> Decision
    ensures { (z : Sizes) (s : Tables) → result ≡ ends_insertion z s t }
{
    if t.swapped == 0 {
        return restarts(t, Report::Lost);
    }
    match Operation::try_from(t.operation) {
        Ok(Operation::Put) => finishes(Write::Nothing, Report::Absent),
        Ok(Operation::PutIfAbsent) => finishes(Write::Nothing, Report::True),
        _ => finishes(Write::Nothing, Report::Done),
    }
}

// 15 unpublish
pub fn end_absent(t: Task) -> Decision
    ensures { (z : Sizes) (s : Tables) → result ≡ ends_absent z s t }
{
    if t.swapped == 0 {
        restarts(t, Report::Lost)
    } else {
        finishes_absent(t)
    }
}

// 10 to 12
#[tactic(auto, unfolding(rules::specs::Stages::stage_does))]
pub fn insertion(s: &Lent, t: Task) -> Decision
    requires { Held s.now.z t × (10 ≤ t.stage) × (t.stage ≤ 12) }
    ensures { (n : ℕ) (d ts vs ms : List ℕ) → result ≡ decide s.now.z (tables s.now.z d ts s.now.chunks.now s.now.entries.now vs ms) n t }
{
    match t.stage {
        10 => publish(s, t),
        11 => swap(s, t, t.new),
        _ => end_insertion(t),
    }
}

// 13 to 15
#[tactic(auto, unfolding(rules::specs::Stages::stage_does))]
pub fn absence(s: &Lent, t: Task) -> Decision
    requires { Held s.now.z t × (13 ≤ t.stage) × (t.stage ≤ 15) }
    ensures { (n : ℕ) (d ts vs ms : List ℕ) → result ≡ decide s.now.z (tables s.now.z d ts s.now.chunks.now s.now.entries.now vs ms) n t }
{
    match t.stage {
        13 => publish(s, t),
        14 => swap(s, t, HandleNo(NONE)),
        _ => end_absent(t),
    }
}

// 19 to 21; 21 unpublishes
#[tactic(auto, unfolding(rules::specs::Stages::stage_does))]
pub fn removal(s: &Lent, t: Task) -> Decision
    requires { Held s.now.z t × (19 ≤ t.stage) × (t.stage ≤ 21) }
    ensures { (n : ℕ) (d ts ms : List ℕ) → result ≡ decide s.now.z (tables s.now.z d ts s.now.chunks.now s.now.entries.now s.now.values.now ms) n t }
{
    match t.stage {
        19 => publish(s, t),
        20 => swap(s, t, HandleNo(NONE)),
        _ => gives_back(s.values, t, Write::Nothing),
    }
}
