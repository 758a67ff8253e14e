// A carrier goes out: 27 OutStart, 28 OutDone.
ghost use Rattle.std.specs.Prelude.{◌≡◌, true};
ghost use Rattle.records.specs.Ports.{handed_out};
ghost use Rattle.records.specs.Carriers.{taken_out};
ghost use Rattle.records.specs.Fields.{with_reserved};
ghost use Rattle.rules.specs.Seen.{numbered};
ghost use Rattle.rules.specs.Row.{on_both};
ghost use Rattle.follow.specs.Follow.{KeptOutside};
ghost use Rattle.mapped.specs.Bytes.{own_in};
ghost use Rattle.queue.specs.Sound.{sound_tool};
ghost use Rattle.queue.specs.Outcome.{given_in};
ghost use Rattle.queued.specs.Bytes.{queued_in, left};

use crate::below::{passed_on, unmoved};
use effects::ask::on_both;
use follow::blocks::BLOCKS;
use image::layout::*;
use line::asked::{some_started_to, started_stands};
use line::change::{begin, remove};
use line::read::{request_at, waiting};
use line::ready::ready_stands;
use machine::step::carry_out;
use mapped::step::Moved;
use ports::service::reserve_at_port_answer;
use records::name::Name;
use records::refusal::Refusal;
use records::words::*;
use rules::input::Input;
use rules::row::{Effect, Seen};
use sight::look::{look, narrow};

// 27: the oldest request that is ready for the port is started, and the port reserved, which is row 11.
pub fn out_start(m: &mut [[u8; TOOL_BYTES]; BLOCKS], o: &mut [u8; REPORTS_BYTES], i: Input) -> Moved
    requires { sound_tool (queued_in m.old) ≡ true }
    ensures result_after { left m.new o.new result ≡ given_in (queued_in m.old)
        (numbered 27 i.entry) }
    ensures kept_outside { KeptOutside 0 1189 (own_in m.old) (own_in m.new) }
{
    let bare = Input {
        number: 11,
        value: 0,
        name: &[],
        codes: &[],
        ..i
    };
    let n = usize::from(waiting(&m[1]));
    let k = ready_stands(m, n, narrow(i.port));
    if k < n {
        let r = passed_on(m, o, bare);
        if r.answer.is_err() {
            return r;
        }
        begin(&mut m[1], k);
        r
    } else {
        let x = look(&m[0], bare);
        let refused = reserve_at_port_answer(x).and(Err(Refusal::Conditions));
        unmoved(&m[0], o, refused)
    }
}

// The reservation ends, and the carrier that is seen comes out: row 7 as document 01 has it.
fn comes_out(x: Seen) -> Effect
    ensures { result ≡ on_both x.count x.port (handed_out x.name (with_reserved 0 x.here)) x.stands
        (taken_out x.port x.found) }
{
    let free = x.here.with_reserved(NOT_RESERVED);
    let out = x.found.taken_out(x.port);
    on_both(x.count, x.port, free.handed_out(x.name), x.stands, out)
}

// 28: the carrier whose request is started to the port comes out, and its entry is free.
pub fn out_done(m: &mut [[u8; TOOL_BYTES]; BLOCKS], o: &mut [u8; REPORTS_BYTES], i: Input) -> Moved
    requires { sound_tool (queued_in m.old) ≡ true }
    ensures result_after { left m.new o.new result ≡ given_in (queued_in m.old)
        (numbered 28 i.entry) }
    ensures kept_outside { KeptOutside 0 1189 (own_in m.old) (own_in m.new) }
{
    let k = started_stands(&m[1], narrow(i.port));
    let q = request_at(&m[1], k);
    let text = q.name.bytes;
    let x = look(
        &m[0],
        Input {
            value: 0,
            name: &text,
            codes: &text,
            ..i
        },
    );
    if some_started_to(&m[1], narrow(i.port)) {
        carry_out(&mut m[0], o, comes_out(x));
        remove(&mut m[1], k);
        Moved {
            answer: Ok(()),
            goes: x.count,
            made: false,
            gone: Name::none(),
        }
    } else if x.isport {
        unmoved(&m[0], o, Err(Refusal::Conditions))
    } else {
        unmoved(&m[0], o, Err(Refusal::OutOfRange))
    }
}
