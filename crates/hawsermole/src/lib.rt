// The library's functions for C: a tool (3,782 bytes, in two blocks) and a report list are bytes that the caller lends, and
// include/hawsermole.h names them.
#![tactic(auto)]

ghost use Rattle.std.specs.Prelude.{◌≡◌, cond, []};
ghost use Rattle.rules.specs.Seen.{input_of};
ghost use Rattle.items.specs.Reading.{read_message};
ghost use Rattle.logs.specs.Judging.{judge};
ghost use Rattle.names.specs.Check.{name_length};
ghost use Rattle.waiting.specs.Waiting.{answer_in, found_in};
ghost use Rattle.prediction.specs.State.{timed};
ghost use Rattle.wafers.specs.Outcome.{brought};
ghost use Rattle.prediction.specs.Outcome.{is_timed};
ghost use Rattle.tool.specs.Whole.{whole_in, sound_whole};
ghost use Rattle.hawsermole.specs.Calls.{SetUpCall, StepCall, bringing_clock, bringing_wafers, SecsCall, ExchangeCall, judgement};
ghost use Rattle.replies.specs.Reply.{reply_text, Wrote};

use bridge::bridge::bridge_step;
use bridge::exchange::exchange;
use door::door::door_step;
use items::reader::read_message;
use judge::log::judge_log;
use model8::facts::is_timed;
use names::check::name_length;
use prediction::input::Timed;
use records::carrier::Carrier;
use records::refusal::answer;
use replies::reply::reply;
use rules::input::Input;
use ticks::seconds::{no_wafers, wafers_from};
use tool::whole::{whole_setup, whole_sound};
use wafers::input::Brought;
use wafers::step::WAFERS;
use waiting::found::{Found, before_end, first_waiting, stopped_at};

// 0x00MMmmpp: 0.14.0, HM_VERSION of the header that belongs to it.
#[unsafe(no_mangle)]
pub extern "C" fn hm_version() -> u32
    ensures { result ≡ 3584 }
{
    0x000E00
}

#[unsafe(no_mangle)]
pub extern "C" fn hm_tool_size() -> u32
    ensures { result ≡ 3782 }
{
    3782
}

#[unsafe(no_mangle)]
pub extern "C" fn hm_reports_size() -> u32
    ensures { result ≡ 201 }
{
    201
}

#[unsafe(no_mangle)]
pub extern "C" fn hm_setup(
    tool: &mut [[u8; 1891]; 2],
    ports: u32,
    places: u32,
    setting: u32,
    timeout: u32,
) -> u32
    ensures { SetUpCall ports places setting timeout result tool.new }
{
    u32::from(answer(whole_setup(tool, ports, places, setting, timeout)))
}

#[unsafe(no_mangle)]
pub extern "C" fn hm_sound(tool: &[[u8; 1891]; 2]) -> u32
    ensures { result ≡ cond (sound_whole (whole_in tool.now)) 1 0 }
{
    u32::from(whole_sound(tool))
}

#[unsafe(no_mangle)]
pub extern "C" fn hm_name(text: &[u8]) -> u32
    ensures { result ≡ name_length text.now }
{
    name_length(text) as u32
}

#[unsafe(no_mangle)]
pub extern "C" fn hm_step(
    tool: &mut [[u8; 1891]; 2],
    reports: &mut [u8; 201],
    number: u32,
    port: u32,
    value: u32,
    name: &[u8],
    codes: &[u8],
) -> u32
    ensures { StepCall tool.old (brought (timed (input_of number port value name.now codes.now) 0 0) [])
        result tool.new reports.new }
{
    let input = Input {
        number,
        port,
        value,
        name,
        codes,
    };
    let said = door_step(tool, reports, Brought::alone(input));
    u32::from(answer(said))
}

// The inputs that bring a clock: 31, and 32 to 34 with a name, Tp or Te. Any other number is none of them.
#[unsafe(no_mangle)]
pub extern "C" fn hm_time_step(
    tool: &mut [[u8; 1891]; 2],
    reports: &mut [u8; 201],
    number: u32,
    clock: u32,
    name: &[u8],
    time: u32,
) -> u32
    ensures { StepCall tool.old (bringing_clock number clock name.now time)
        result tool.new reports.new }
{
    let number = if is_timed(number) { number } else { 0 };
    let input = Input {
        number,
        port: 0,
        value: 0,
        name,
        codes: &[],
    };
    let timed = Timed { input, clock, time };
    let brought = Brought {
        timed,
        wafers: no_wafers(),
    };
    u32::from(answer(door_step(tool, reports, brought)))
}

// 35: Tp comes from the times of up to 25 wafers, a process time and a handling time each, in turn.
#[unsafe(no_mangle)]
pub extern "C" fn hm_wafers_step(
    tool: &mut [[u8; 1891]; 2],
    reports: &mut [u8; 201],
    clock: u32,
    name: &[u8],
    times: &[f64],
) -> u32
    ensures { StepCall tool.old (bringing_wafers clock name.now times.now)
        result tool.new reports.new }
{
    let input = Input {
        number: WAFERS,
        port: 0,
        value: 0,
        name,
        codes: &[],
    };
    let timed = Timed {
        input,
        clock,
        time: 0,
    };
    let brought = Brought {
        timed,
        wafers: wafers_from(times),
    };
    u32::from(answer(door_step(tool, reports, brought)))
}

// The first carrier that waits for the host, in a table that the equipment lends: C passes its first record and how many there are.
#[unsafe(no_mangle)]
pub extern "C" fn hm_waiting(carriers: &[Carrier], found: &mut Found) -> u32
    ensures { (found.new ≡ found_in carriers.now) × (result ≡ answer_in carriers.now) }
{
    let n = carriers.len();
    let first = first_waiting(carriers).unwrap_or(n);
    *found = stopped_at(first, n);
    before_end(first, n)
}

#[unsafe(no_mangle)]
pub extern "C" fn hm_secs_step(
    tool: &mut [[u8; 1891]; 2],
    reports: &mut [u8; 201],
    message: &[u8],
    items: &mut u32,
) -> u32
    ensures { SecsCall tool.old message.now
        result tool.new reports.new items.new }
{
    u32::from(answer(bridge_step(tool, reports, message, items)))
}

// The bridge's whole way: the text of S3F17 in, the text of S3F18 out, into room that the caller lends.
#[unsafe(no_mangle)]
pub extern "C" fn hm_secs_exchange(
    tool: &mut [[u8; 1891]; 2],
    reports: &mut [u8; 201],
    message: &[u8],
    items: &mut u32,
    room: &mut [u8],
    length: &mut u32,
) -> u32
    ensures { ExchangeCall tool.old message.now room.old
        result tool.new reports.new items.new room.new length.new }
{
    u32::from(answer(exchange(tool, reports, message, items, room, length)))
}

// The text of S3F18 for an answer.
#[unsafe(no_mangle)]
pub extern "C" fn hm_reply(number: u32, room: &mut [u8], length: &mut u32) -> u32
    ensures { Wrote room.old (reply_text number) result room.new length.new }
{
    match reply(number, room) {
        Ok(many) => {
            *length = many;
            0
        }
        Err(refusal) => {
            *length = 0;
            u32::from(refusal.number())
        }
    }
}

// Where reading a message stopped: at the item that was refused, at the first byte left over, or at the end.
#[unsafe(no_mangle)]
pub extern "C" fn hm_secs_at(message: &[u8]) -> usize
    ensures { result ≡ (read_message message.now).at }
{
    read_message(message).at
}

// A log judged by document 01: 0, it agrees; 1, an entry disagrees; 27 to 29, it is refused. `judged` is how many entries agree before
// that, where the judging ended, and the answer that document 01 gave last; `tool` and `reports` are the tool and the reports then.
#[unsafe(no_mangle)]
pub extern "C" fn hm_judge(
    log: &[u8],
    tool: &mut [u8; 1891],
    reports: &mut [u8; 201],
    judged: &mut [u64; 3],
) -> u32
    ensures { judgement result judged.new tool.new reports.new ≡ judge log.now }
{
    let v = judge_log(log, tool, reports);
    *judged = [v.entry as u64, v.at as u64, u64::from(v.answer)];
    u32::from(v.says.number())
}
