// Reads a script of calls on standard input and answers each line; the calls are on one directory, fresh at first.
#![tactic(auto)]

mod answers;
mod tables;

use answers::Answers;
use script::{Asked, Line};
use std::io::Read;
use tables::Tables;

// A run stands between two bytes: the directory, the line so far, and the answers that are not written yet.
#[derive(Drop)]
struct Run<'a, P: Print> {
    tables: &'a mut Tables,
    line: Line,
    answers: Answers<'a, P>,
}

impl<P: Print> Run<'_, P> {
    // Answers the line, which has ended; any line makes room, also one that has no answer.
    fn answer(&mut self) {
        let asked = self.line.asks();
        self.line = Line::empty();
        let told = match asked {
            Asked::Nothing => return self.answers.make_room(),
            Asked::NoCall => return script::text_line(self.answers.line(), b"no call"),
            Asked::Tables => return self.tables.print(&mut self.answers),
            Asked::Start(n, op, k, a, f) => self.tables.start(n, op, k, a, f),
            Asked::Step(n) => self.tables.step(n),
            Asked::Begin(k) => self.tables.begin(k),
            Asked::Rebalance => self.tables.rebalance(),
        };
        script::report(self.answers.line(), told)
    }

    // Takes each byte of a block.
    fn take(&mut self, block: &[u8]) {
        for b in block {
            match *b {
                b'\n' => self.answer(),
                b => self.line.take(b),
            }
        }
    }
}

// Reads to the end of the input; the last line may lack its newline.
// A loop has to end, so it counts its turns up to a number that no run comes to.
fn replay<R: Input + Print>(rt: &R, input: &mut [u8], run: &mut Run<'_, R>) {
    for _ in 0..u64::MAX {
        let n = rt.reader().read(input).unwrap_or(0);
        if n == 0 {
            break;
        }
        run.take(&input[..n]);
        if run.answers.write().is_err() {
            break;
        }
    }
    run.answer();
    // The run has ended, so a failure would end nothing more.
    let _ = run.answers.write();
}

fn main(rt: HostRuntime) {
    let mut input = [0; 65536];
    let mut out = [0; 65536];
    let mut tables = Tables::empty();
    tables.fresh();
    let mut run = Run {
        tables: &mut tables,
        line: Line::empty(),
        answers: Answers::new(&rt, &mut out),
    };
    replay(&rt, &mut input, &mut run);
}
