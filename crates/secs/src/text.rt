// Texts in a message: whether one is an action, or SlotMap.
ghost use Rattle.std.specs.Prelude.{◌≡◌};
ghost use Rattle.secs.specs.Actions.{row_of_action, row_found};
ghost use Rattle.secs.specs.InPlace.{named_at, row_at};

use items::head::*;

// What the host asks for, each by the number of its row.
#[derive(Clone, Copy, PartialEq, Eq)]
pub enum Action {
    Bind = 1,
    CarrierNotification = 3,
    ProceedWithCarrier = 5,
    CancelCarrier = 6,
}

impl Action {
    pub fn row(self) -> u8
        ensures { result ≡ row_of_action self }
    {
        self as u8
    }
}

// The data of the item at a position is a text.
#[tactic(auto, using(lists::proofs::Library::equal_is_same), unfolding(crate::specs::InPlace::named_at))]
pub fn named(msg: &[u8], at: usize, text: &[u8]) -> bool
    ensures { result ≡ named_at msg.now at text.now }
{
    let h = head_at(msg, at);
    let from = h.body;
    let to = h.body + h.many;
    to <= msg.len() && &msg[from..to] == text
}

// The action at a position, if there is one.
#[tactic(auto, unfolding(crate::specs::InPlace::row_at))]
pub fn action_at(msg: &[u8], at: usize) -> Option<Action>
    ensures { row_found result ≡ row_at msg.now at }
{
    if named(msg, at, b"Bind") {
        Some(Action::Bind)
    } else if named(msg, at, b"CarrierNotification") {
        Some(Action::CarrierNotification)
    } else if named(msg, at, b"ProceedWithCarrier") {
        Some(Action::ProceedWithCarrier)
    } else if named(msg, at, b"CancelCarrier") {
        Some(Action::CancelCarrier)
    } else {
        None
    }
}
