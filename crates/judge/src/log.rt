// A log, judged entry by entry.
ghost use Rattle.std.specs.Prelude.{◌≡◌, true, ◌≤◌, length, drop};
ghost use Rattle.rules.specs.Sound.{sound_tool};
ghost use Rattle.rules.specs.Reports.{no_reports};
ghost use Rattle.image.specs.Image.{tool_from, reports_from};
ghost use Rattle.logs.specs.Judging.{untouched, judging, judge};
ghost use Rattle.judge.specs.Held.{judgement, OfLogs};

use crate::entry::*;
use crate::verdict::*;
use image::layout::*;
use image::report::no_reports;
use logs::bytes::*;
use logs::head::*;
use logs::sizes::*;
use machine::setup::setup;
use records::refusal::Refusal;

// Entry after entry, from the end of the head on.
fn judge_entries(
    log: &[u8],
    tool: &mut [u8; TOOL_BYTES],
    reports: &mut [u8; REPORTS_BYTES],
) -> Verdict
    requires tool_value { sound_tool (tool_from tool.old) ≡ true }
    requires reports_value { reports_from reports.old ≡ no_reports }
    requires in_bounds { 7 ≤ length log.now }
    ensures judged { judgement result tool.new reports.new
        ≡ judging 0 7 (untouched (tool_from tool.old)) 0 (drop 7 log.now) }
    ensures of_logs { OfLogs result.says }
{
    let n = log.len();
    let mut entry = 0;
    let mut at = 7;
    let mut answer = 0;
    // Each entry says where the next one begins: no range has these positions.
    while at < n {
        let end = entry_end(log, at);
        if n < end {
            return Verdict {
                says: Said::Refused(Refusal::LogCutShort),
                entry,
                at,
                answer,
            };
        }
        answer = step_entry(log, at, tool, reports);
        if !shows(log, at, end, answer, reports) {
            return Verdict {
                says: Said::Disagrees,
                entry,
                at,
                answer,
            };
        }
        entry += 1;
        at = end;
    }
    Verdict {
        says: Said::Agrees,
        entry,
        at,
        answer,
    }
}

pub fn judge_log(
    log: &[u8],
    tool: &mut [u8; TOOL_BYTES],
    reports: &mut [u8; REPORTS_BYTES],
) -> Verdict
    ensures judged { judgement result tool.new reports.new ≡ judge log.now }
    ensures of_logs { OfLogs result.says }
{
    no_reports(reports);
    if let Err(stop) = read_head(log) {
        // It is refused, and gives no tool.
        let _ = setup(tool, 0, 0);
        return Verdict {
            says: Said::Refused(stop.refusal),
            entry: 0,
            at: stop.at,
            answer: 0,
        };
    }
    let ports = byte(log, 5);
    let places = byte(log, 6);
    // It is accepted: the head's reading saw to that.
    let _ = setup(tool, ports as u32, places as u32);
    judge_entries(log, tool, reports)
}
