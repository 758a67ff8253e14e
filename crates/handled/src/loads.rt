// 14. LoadDone, which holds a pod whose start raised the alarm; and 36. Continue.
ghost use Rattle.std.specs.Prelude.{◌≡◌, true};
ghost use Rattle.records.specs.Refusals.{answer};
ghost use Rattle.follow.specs.Follow.{KeptOutside};
ghost use Rattle.mapped.specs.Bytes.{own_in};
ghost use Rattle.wafers.specs.Outcome.{brought_in, numbered};
ghost use Rattle.hands.specs.Sound.{sound_tool};
ghost use Rattle.hands.specs.Outcome.{given_in};
ghost use Rattle.handled.specs.Bytes.{handled_in, left};

use crate::alarm::no_alarm;
use crate::here::find_port;
use crate::passed::{passed, refused};
use crate::settle::settle_all;
use crate::words::LOAD_DONE;
use follow::blocks::BLOCKS;
use hands::alarm::Alarm;
use image::layout::*;
use image::report::no_reports;
use records::refusal::Refusal;
use records::words::*;
use rules::input::Input;
use sight::look::narrow;
use wafers::input::Brought;

pub fn load_done(
    m: &mut [[u8; TOOL_BYTES]; BLOCKS],
    o: &mut [u8; REPORTS_BYTES],
    i: Brought,
) -> Result<(), Refusal>
    requires { sound_tool (handled_in m.old) ≡ true }
    ensures result_after { left m.new o.new (answer result) ≡ given_in (handled_in m.old) (numbered 14 (brought_in i.entry)) }
    ensures kept_outside { KeptOutside 0 1605 (own_in m.old) (own_in m.new) }
{
    let at = find_port(m, i);
    if at.alarm.held == ON {
        refused(o, Err(Refusal::Conditions))
    } else if (at.port.movement == LOADING) & (at.alarm.on == ON) {
        no_reports(o);
        let holding = Alarm {
            held: ON,
            ..at.alarm
        };
        settle_all(m, o, narrow(i.timed.input.port), holding);
        Ok(())
    } else {
        passed(m, o, i.numbered(LOAD_DONE), at.alarm)
    }
}

pub fn continue_step(
    m: &mut [[u8; TOOL_BYTES]; BLOCKS],
    o: &mut [u8; REPORTS_BYTES],
    i: Brought,
) -> Result<(), Refusal>
    requires { sound_tool (handled_in m.old) ≡ true }
    ensures result_after { left m.new o.new (answer result) ≡ given_in (handled_in m.old) (numbered 36 (brought_in i.entry)) }
    ensures kept_outside { KeptOutside 0 1605 (own_in m.old) (own_in m.new) }
{
    let at = find_port(m, i);
    if at.alarm.held == ON {
        let done = Input {
            number: LOAD_DONE,
            port: i.timed.input.port,
            value: 0,
            name: &[],
            codes: &[],
        };
        return passed(m, o, Brought::alone(done), no_alarm());
    }
    if !at.is_port {
        return refused(o, Err(Refusal::OutOfRange));
    }
    refused(o, Err(Refusal::Conditions))
}
