// The lines that answer a call.
ghost use Rattle.script.specs.Puts.{PutsLine};
ghost use Rattle.script.specs.Texts.{told_text};

use crate::out::Out;
use rules::Report;

// A report's line.
pub fn report(out: &mut Out, r: Report)
    ensures { PutsLine out.old.bytes.now out.new.bytes.now out.old.at (told_text r) out.new.at }
{
    match r {
        Report::Moved => out.line(b"moved on"),
        Report::Frozen => out.line(b"restarted frozen"),
        Report::Full => out.line(b"restarted full"),
        Report::Lost => out.line(b"restarted lost"),
        Report::Pair(k, v) => {
            out.field(b"pair ", k);
            out.last(b" ", v)
        }
        Report::Value(v) => out.last(b"finished value ", v),
        Report::Absent => out.line(b"finished absent"),
        Report::Done => out.line(b"finished done"),
        Report::True => out.line(b"finished true"),
        Report::False => out.line(b"finished false"),
        Report::Waiting => out.line(b"waiting"),
        Report::Finished => out.line(b"finished"),
        Report::Refused(n) => out.last(b"refused ", n),
    }
}

// A line of the text.
pub fn text_line(out: &mut Out, text: &[u8])
    ensures { PutsLine out.old.bytes.now out.new.bytes.now out.old.at text.now out.new.at }
{
    out.line(text)
}
