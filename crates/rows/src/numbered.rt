// The 26 inputs by number: document 01's numbers are the names of its rows, and C hands any number.
ghost use Rattle.std.specs.Prelude.{◌≡◌};
ghost use Rattle.records.specs.Refusals.{answer};
ghost use Rattle.rules.specs.Row.{judge};
ghost use Rattle.rules.specs.Rows.{row_of};

use effects::ask::on_port;
use inside::buffer::{
    carrier_in_answer, carrier_in_effect, carrier_out_answer, carrier_out_effect, move_in_answer,
    move_in_effect,
};
use inside::opening::{
    access_end_answer, access_end_effect, access_start_answer, access_start_effect, close_answer,
    close_effect, open_answer, open_effect, slot_map_answer, slot_map_effect,
};
use pods::reading::{id_read_answer, id_read_effect, id_read_failed_answer, id_read_failed_effect};
use pods::verdict::{
    cancel_carrier_answer, cancel_carrier_effect, proceed_with_carrier_answer,
    proceed_with_carrier_effect,
};
use ports::booking::{
    bind_answer, bind_effect, cancel_bind_answer, cancel_bind_effect,
    cancel_carrier_notification_answer, cancel_carrier_notification_effect,
    carrier_notification_answer, carrier_notification_effect,
};
use ports::service::{
    cancel_reservation_at_port_answer, cancel_reservation_at_port_effect, change_access_answer,
    change_access_effect, change_service_status_answer, change_service_status_effect,
    reserve_at_port_answer, reserve_at_port_effect,
};
use ports::transfer::{
    load_done_answer, load_done_effect, load_fail_answer, load_fail_effect, load_start_answer,
    load_start_effect, unload_done_answer, unload_done_effect, unload_fail_answer,
    unload_fail_effect, unload_start_answer, unload_start_effect,
};
use records::port::Port;
use records::refusal::Refusal;
use records::words::NO_PORT;
use rules::row::{Effect, Seen};

// What an input is refused for: the first ground of its row that applies.
#[tactic(auto, unfolding(rules::specs::Rows::row_of))]
pub fn answer_of(number: u32, x: Seen) -> Result<(), Refusal>
    ensures { answer result ≡ judge (row_of number x).grounds }
{
    match number {
        1 => bind_answer(x),
        2 => cancel_bind_answer(x),
        3 => carrier_notification_answer(x),
        4 => cancel_carrier_notification_answer(x),
        5 => proceed_with_carrier_answer(x),
        6 => cancel_carrier_answer(x),
        7 => carrier_out_answer(x),
        8 => carrier_in_answer(x),
        9 => change_access_answer(x),
        10 => change_service_status_answer(x),
        11 => reserve_at_port_answer(x),
        12 => cancel_reservation_at_port_answer(x),
        13 => load_start_answer(x),
        14 => load_done_answer(x),
        15 => load_fail_answer(x),
        16 => id_read_answer(x),
        17 => id_read_failed_answer(x),
        18 => move_in_answer(x),
        19 => open_answer(x),
        20 => slot_map_answer(x),
        21 => access_start_answer(x),
        22 => access_end_answer(x),
        23 => close_answer(x),
        24 => unload_start_answer(x),
        25 => unload_done_answer(x),
        26 => unload_fail_answer(x),
        _ => Err(Refusal::OutOfRange),
    }
}

// What an accepted input changes.
#[tactic(auto, unfolding(rules::specs::Rows::row_of))]
pub fn effect_of(number: u32, x: Seen) -> Effect
    ensures { result ≡ (row_of number x).effect }
{
    match number {
        1 => bind_effect(x),
        2 => cancel_bind_effect(x),
        3 => carrier_notification_effect(x),
        4 => cancel_carrier_notification_effect(x),
        5 => proceed_with_carrier_effect(x),
        6 => cancel_carrier_effect(x),
        7 => carrier_out_effect(x),
        8 => carrier_in_effect(x),
        9 => change_access_effect(x),
        10 => change_service_status_effect(x),
        11 => reserve_at_port_effect(x),
        12 => cancel_reservation_at_port_effect(x),
        13 => load_start_effect(x),
        14 => load_done_effect(x),
        15 => load_fail_effect(x),
        16 => id_read_effect(x),
        17 => id_read_failed_effect(x),
        18 => move_in_effect(x),
        19 => open_effect(x),
        20 => slot_map_effect(x),
        21 => access_start_effect(x),
        22 => access_end_effect(x),
        23 => close_effect(x),
        24 => unload_start_effect(x),
        25 => unload_done_effect(x),
        26 => unload_fail_effect(x),
        _ => on_port(x.count, NO_PORT, Port::none()),
    }
}
