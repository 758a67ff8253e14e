// What an entry shows, held against a report list.
ghost use Rattle.std.specs.Prelude.{◌≡◌, ◌+◌, ◌≤◌, length};
ghost use Rattle.std.specs.Option.{option_map};
ghost use Rattle.lists.specs.Lists.{same_list};
ghost use Rattle.image.specs.Image.{name_from, report_from, reports_from};
ghost use Rattle.logs.specs.Written.{text_of, report, shown, list_of};
ghost use Rattle.logs.specs.InPlace.{after};

use crate::sizes::on_name;
use image::layout::*;
use records::sizes::*;

// The name that begins at a position of the report list: its bytes up to the first zero.
fn text(o: &[u8; REPORTS_BYTES], from: usize) -> &[u8]
    requires { from + 16 ≤ 201 }
    ensures value { result.now ≡ text_of (name_from o.now from) }
    ensures upper_bound { length result.now ≤ 16 }
{
    let bytes = &o[from..from + NAME_BYTES];
    let n = (0..NAME_BYTES)
        .position(|i| bytes[i] == 0)
        .unwrap_or(NAME_BYTES);
    &bytes[..n]
}

// What is left of bytes that begin with the report at `from` of the report list; none where they begin with anything else.
fn after_report<'a>(l: &'a [u8], o: &[u8; REPORTS_BYTES], from: usize) -> Option<&'a [u8]>
    requires { from + 20 ≤ 201 }
    ensures { option_map (λ rest. rest.now) result ≡ after l.now (report (report_from o.now from)) }
{
    let model = o[from];
    let old = o[from + OLD_OFFSET];
    let new = o[from + NEW_OFFSET];
    if on_name(usize::from(model)) {
        let name = text(o, from + SUBJECT_NAME_OFFSET);
        let named = l.strip_prefix(&[model, name.len() as u8])?;
        let told = named.strip_prefix(name)?;
        told.strip_prefix(&[old, new])
    } else {
        l.strip_prefix(&[model, o[from + SUBJECT_PORT_OFFSET], old, new])
    }
}

// And of bytes that begin with an answer, the count of a report list and its reports.
fn after_shown<'a>(l: &'a [u8], answer: u8, o: &[u8; REPORTS_BYTES]) -> Option<&'a [u8]>
    requires { (reports_from o.now).count ≤ 10 }
    ensures { option_map (λ rest. rest.now) result ≡ after l.now (shown answer (list_of (reports_from o.now))) }
{
    let count = o[REPORTED_OFFSET];
    let mut rest = l.strip_prefix(&[answer, count])?;
    for k in 0..usize::from(count) {
        rest = after_report(rest, o, REPORTS_START + REPORT_BYTES * k)?;
    }
    Some(rest)
}

// Bytes are an answer, the count of a report list and its reports.
pub fn is_shown(l: &[u8], answer: u8, o: &[u8; REPORTS_BYTES]) -> bool
    requires { (reports_from o.now).count ≤ 10 }
    ensures { result ≡ same_list l.now (shown answer (list_of (reports_from o.now))) }
{
    after_shown(l, answer, o).is_some_and(|rest| rest.is_empty())
}
