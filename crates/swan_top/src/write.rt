// Writing what was settled.
ghost use Rattle.swan_top.specs.Decision.{prints, refuses};
ghost use Rattle.swan_top.specs.Headline.{Ends, sink_over};
ghost use Rattle.swan_top.specs.Settled.{EndsSo, IsEnd, verdict_of};

use crate::Status;
use crate::verdict::Settled;
use swan_outside::{Sink, put_all};

// Writes both texts, the output first.
fn write_texts<O: Sink, R: Sink>(
    out: &mut O,
    report: &mut R,
    out_text: &[u8],
    report_text: &[u8],
    ends: Status,
) -> Status
    requires { IsEnd ends }
    ensures { Ends (sink_over O.Sink out.old out.new) (sink_over R.Sink report.old report.new)
        (prints out_text.now report_text.now ends) result }
{
    if put_all(out, out_text).is_err() {
        return Status::WriteFailed;
    }
    if put_all(report, report_text).is_err() {
        return Status::WriteFailed;
    }
    ends
}

// Writes a refusal's line to the report, and nothing to the output, which is handed in only for the clause to say so.
pub(crate) fn write_line<O: Sink, R: Sink>(
    _out: &mut O,
    report: &mut R,
    line: &[u8],
    ends: Status,
) -> Status
    requires { IsEnd ends }
    ensures { Ends (sink_over O.Sink _out.old _out.new) (sink_over R.Sink report.old report.new)
        (refuses line.now ends) result }
{
    if put_all(report, line).is_err() {
        return Status::WriteFailed;
    }
    ends
}

// Writes what was settled.
pub(crate) fn write_settled<O: Sink, R: Sink>(
    out: &mut O,
    report: &mut R,
    settled: Settled,
) -> Status
    requires { EndsSo settled }
    ensures { Ends (sink_over O.Sink out.old out.new) (sink_over R.Sink report.old report.new)
        (verdict_of settled) result }
{
    match settled {
        Settled::Prints {
            out: out_text,
            report: report_text,
            ends,
        } => write_texts(
            out,
            report,
            out_text.as_slice(),
            report_text.as_slice(),
            ends,
        ),
        Settled::Refuses { line, ends } => write_line(out, report, line.as_slice(), ends),
    }
}
