// What an effect touches, as reports, in place.
ghost use Rattle.std.specs.Prelude.{◌≡◌};
ghost use Rattle.records.specs.Names.{no_name};
ghost use Rattle.rules.specs.Reports.{no_reports, report_if, change, tie_number};
ghost use Rattle.image.specs.Image.{reports_from};
ghost use Rattle.parts.specs.Told.{noted, note_all, port_touched, touched};

use image::layout::*;
use image::report::{no_reports, put_report, reported};
use records::carrier::Carrier;
use records::name::Name;
use records::port::Port;
use records::words::*;
use rules::report::Report;
use rules::row::Effect;

// One report more, in the next entry; past the tenth nothing is kept.
fn noted(o: &mut [u8; REPORTS_BYTES], r: Report)
    ensures { reports_from o.new ≡ noted (reports_from o.old) r }
{
    let k = reported(o);
    if k < REPORTED_MOST {
        put_report(o, usize::from(k), r);
        o[REPORTED_OFFSET] = k + 1;
    }
}

// A report, if b holds. Its fields come one by one, as models 8 and 9 have them.
#[tactic(auto, unfolding(rules::specs::Reports::report_if, crate::specs::Told::note_all))]
pub fn note_if(
    o: &mut [u8; REPORTS_BYTES],
    b: bool,
    model: u8,
    port: u8,
    name: Name,
    old: u8,
    new: u8,
)
    ensures { reports_from o.new ≡ note_all (reports_from o.old) (report_if b model port name old new) }
{
    if b {
        noted(
            o,
            Report {
                model,
                port,
                name,
                old,
                new,
            },
        );
    }
}

// The report, if the state that it is of changes.
fn note_change(o: &mut [u8; REPORTS_BYTES], r: Report)
    ensures { reports_from o.new ≡ note_all (reports_from o.old) (change r.model r.port r.name r.old r.new) }
{
    note_if(o, r.old != r.new, r.model, r.port, r.name, r.old, r.new);
}

fn of_port(model: u8, port: u8, old: u8, new: u8) -> Report
    ensures { result ≡ record { model = model; port = port; name = no_name; old = old; new = new } }
{
    Report {
        model,
        port,
        name: Name::none(),
        old,
        new,
    }
}

fn of_carrier(model: u8, name: Name, old: u8, new: u8) -> Report
    ensures { result ≡ record { model = model; port = 0; name = name; old = old; new = new } }
{
    Report {
        model,
        port: NO_PORT,
        name,
        old,
        new,
    }
}

#[tactic(auto, using(records::proofs::Names::equal_names), unfolding(rules::specs::Reports::tie_number))]
fn tie_number(n: Name) -> u8
    ensures { result ≡ tie_number n }
{
    if n == Name::none() { NOT_TIED } else { TIED }
}

// Models 1 to 4.
fn port_reports(o: &mut [u8; REPORTS_BYTES], p: u8, x: Port, q: Port)
    ensures { reports_from o.new ≡ note_all (reports_from o.old) (port_touched p x q) }
{
    note_change(o, of_port(1, p, x.transfer, q.transfer));
    note_change(o, of_port(2, p, x.access, q.access));
    note_change(o, of_port(3, p, x.reserved, q.reserved));
    let old = tie_number(x.tie);
    let new = tie_number(q.tie);
    note_if(o, x.tie != q.tie, 4, p, Name::none(), old, new);
}

// The port x as it was, the record g that goes, and the record w that changes, as it was.
pub fn told(o: &mut [u8; REPORTS_BYTES], e: Effect, x: Port, g: Carrier, w: Carrier)
    ensures { reports_from o.new ≡ note_all no_reports (touched x g w e) }
{
    let c = e.next;
    no_reports(o);
    port_reports(o, e.port, x, e.becomes);
    // models 5 to 7, each of the record that goes, then of the one that changes or is new
    note_change(o, of_carrier(5, g.name, g.id, NO_STATE));
    note_change(o, of_carrier(5, c.name, w.id, c.id));
    note_change(o, of_carrier(6, g.name, g.slot, NO_STATE));
    note_change(o, of_carrier(6, c.name, w.slot, c.slot));
    note_change(o, of_carrier(7, g.name, g.accessing, NO_STATE));
    note_change(o, of_carrier(7, c.name, w.accessing, c.accessing));
}
