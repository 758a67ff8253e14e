// One entry: what document 01 gives for its input, and whether it shows that.
ghost use Rattle.std.specs.Prelude.{◌≡◌, true, ◌+◌, ◌≤◌, length, drop};
ghost use Rattle.lists.specs.Lists.{same_list};
ghost use Rattle.rules.specs.Sound.{sound_tool};
ghost use Rattle.rules.specs.Outcome.{outcome};
ghost use Rattle.image.specs.Image.{tool_from, reports_from};
ghost use Rattle.logs.specs.Layout.{input_size, input_in, entry_size, shown_in};
ghost use Rattle.logs.specs.Written.{shown, list_of};
ghost use Rattle.judge.specs.Held.{gave};

use image::layout::*;
use logs::bytes::*;
use logs::shown::*;
use logs::sizes::*;
use machine::step::step_sound;
use records::refusal::answer;
use rules::input::Input;

// The input of the entry at a position, to document 01's machine: the answer that it gives.
// The answer is a number, as `gave` and the entry have it.
pub fn step_entry(
    log: &[u8],
    at: usize,
    tool: &mut [u8; TOOL_BYTES],
    reports: &mut [u8; REPORTS_BYTES],
) -> u8
    requires tool_value { sound_tool (tool_from tool.old) ≡ true }
    requires log_in_bounds { at + input_size (drop at log.now) ≤ length log.now }
    ensures { gave tool.new reports.new result
        ≡ outcome (tool_from tool.old) (input_in (drop at log.now)) }
{
    let number = byte(log, at);
    let port = byte(log, at + 1);
    let value = byte(log, at + 2);
    let name = at + 4;
    let codes = name + byte(log, at + 3);
    let end = codes + codes_size(number);
    let input = Input {
        number: number as u32,
        port: port as u32,
        value: value as u32,
        name: &log[name..codes],
        codes: &log[codes..end],
    };
    answer(step_sound(tool, reports, input))
}

// Whether the entry at a position, which the log has to its end, shows an answer and a report list.
pub fn shows(log: &[u8], at: usize, end: usize, answer: u8, reports: &[u8; REPORTS_BYTES]) -> bool
    requires end_value { end ≡ at + entry_size (drop at log.now) }
    requires end_in_bounds { end ≤ length log.now }
    requires reports_bound { (reports_from reports.now).count ≤ 10 }
    ensures { result ≡ same_list (shown_in (drop at log.now)) (shown answer (list_of (reports_from reports.now))) }
{
    let from = at + input_size(log, at);
    is_shown(&log[from..end], answer, reports)
}
