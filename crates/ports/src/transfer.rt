// Rows 13 to 15 and 24 to 26: a pod is loaded at a port, or unloaded from it.
// Its effects are alike but for the method that gives the next port: each is one line beside its row's definition.
ghost use Rattle.std.specs.Prelude.{◌≡◌, [], ◌∷◌, eqb};
ghost use Rattle.records.specs.Refusals.{answer};
ghost use Rattle.rules.specs.Row.{judge, unless};
ghost use Rattle.rules.specs.Transfer.{load_start, load_done, load_fail, unload_start, unload_done, unload_fail};

use effects::ask::{on_port, on_port_and_gone};
use records::refusal::{Refusal, unless};
use records::words::*;
use rules::row::{Effect, Seen};

pub fn load_start_answer(x: Seen) -> Result<(), Refusal>
    ensures { answer result ≡ judge (load_start x).grounds }
{
    unless(x.isport, Refusal::OutOfRange)?;
    unless(x.here.transfer == READY_TO_LOAD, Refusal::Conditions)
}

pub fn load_start_effect(x: Seen) -> Effect
    ensures { result ≡ (load_start x).effect }
{
    on_port(x.count, x.port, x.here.start_load())
}

// What a load or an unload that ends answers.
fn unless_moving(x: Seen, movement: u8) -> Result<(), Refusal>
    ensures { answer result ≡ judge (unless x.isport 1 ∷ unless (eqb x.here.movement movement) 5 ∷ []) }
{
    unless(x.isport, Refusal::OutOfRange)?;
    unless(x.here.movement == movement, Refusal::Conditions)
}

pub fn load_done_answer(x: Seen) -> Result<(), Refusal>
    ensures { answer result ≡ judge (load_done x).grounds }
{
    unless_moving(x, LOADING)
}

pub fn load_done_effect(x: Seen) -> Effect
    ensures { result ≡ (load_done x).effect }
{
    on_port(x.count, x.port, x.here.loaded())
}

pub fn load_fail_answer(x: Seen) -> Result<(), Refusal>
    ensures { answer result ≡ judge (load_fail x).grounds }
{
    unless_moving(x, LOADING)
}

pub fn load_fail_effect(x: Seen) -> Effect
    ensures { result ≡ (load_fail x).effect }
{
    on_port(x.count, x.port, x.here.not_loaded())
}

pub fn unload_start_answer(x: Seen) -> Result<(), Refusal>
    ensures { answer result ≡ judge (unload_start x).grounds }
{
    unless(x.isport, Refusal::OutOfRange)?;
    unless(x.here.transfer == READY_TO_UNLOAD, Refusal::Conditions)
}

pub fn unload_start_effect(x: Seen) -> Effect
    ensures { result ≡ (unload_start x).effect }
{
    on_port(x.count, x.port, x.here.start_unload())
}

pub fn unload_done_answer(x: Seen) -> Result<(), Refusal>
    ensures { answer result ≡ judge (unload_done x).grounds }
{
    unless_moving(x, UNLOADING)
}

pub fn unload_done_effect(x: Seen) -> Effect
    ensures { result ≡ (unload_done x).effect }
{
    on_port_and_gone(x.count, x.port, x.here.emptied(), x.holds)
}

pub fn unload_fail_answer(x: Seen) -> Result<(), Refusal>
    ensures { answer result ≡ judge (unload_fail x).grounds }
{
    unless_moving(x, UNLOADING)
}

pub fn unload_fail_effect(x: Seen) -> Effect
    ensures { result ≡ (unload_fail x).effect }
{
    on_port(x.count, x.port, x.here.not_unloaded())
}
