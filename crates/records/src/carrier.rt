// A carrier record answers each input with the record that follows it.
// Some are alike but for the fields that they set: which these are is what each definition says, and no parameter can name a field.
ghost use Rattle.std.specs.Prelude.{◌≡◌};
ghost use Rattle.records.specs.Carriers.{no_carrier, new_carrier, placed_at, proceeded, judged_no, cancelled_by};
ghost use Rattle.records.specs.Carriers.{taken_out, taken_back, moved_in, with_map};
ghost use Rattle.records.specs.Fields.{with_id, with_opened, with_accessing};

use crate::name::Name;
use crate::sizes::*;
use crate::words::*;

// spot: the buffer place; port: the tie; the states are in `words`.
#[repr(C)]
#[derive(Clone, Copy)]
pub struct Carrier {
    pub name: Name,
    pub place: u8,
    pub spot: u8,
    pub port: u8,
    pub opened: u8,
    pub cancelled: u8,
    pub cameout: u8,
    pub map: [u8; SLOTS],
    pub id: u8,
    pub slot: u8,
    pub accessing: u8,
}

impl Carrier {
    pub fn none() -> Carrier
        ensures { result ≡ no_carrier }
    {
        Carrier {
            name: Name::none(),
            place: 0,
            spot: 0,
            port: 0,
            opened: 0,
            cancelled: 0,
            cameout: 0,
            map: [0; SLOTS],
            id: 0,
            slot: 0,
            accessing: 0,
        }
    }

    // A new record, tied to a port, or to none.
    pub fn fresh(name: Name, port: u8) -> Carrier
        ensures { result ≡ new_carrier name port }
    {
        Carrier {
            name,
            place: EXPECTED,
            spot: NO_SPOT,
            port,
            opened: CLOSED,
            cancelled: OFF,
            cameout: OFF,
            map: [0; SLOTS],
            id: NOT_READ,
            slot: NOT_READ,
            accessing: NOT_ACCESSED,
        }
    }

    // At port p, tied to it.
    pub fn placed_at(mut self, p: u8) -> Carrier
        ensures { result ≡ placed_at p self }
    {
        self.place = AT_PORT;
        self.spot = NO_SPOT;
        self.port = p;
        self
    }

    // ID status set.
    pub fn with_id(mut self, v: u8) -> Carrier
        ensures { result ≡ with_id v self }
    {
        self.id = v;
        self
    }

    // The host says yes: the ID that waits is OK, else the slot map is.
    pub fn proceeded(mut self) -> Carrier
        ensures { result ≡ proceeded self }
    {
        if self.id == WAITING {
            self.id = OK;
        } else {
            self.slot = OK;
        }
        self
    }

    // The host says no: the ID that waits is FAILED, else the slot map that waits is.
    pub fn judged_no(mut self) -> Carrier
        ensures { result ≡ judged_no self }
    {
        if self.id == WAITING {
            self.id = FAILED;
        } else if self.slot == WAITING {
            self.slot = FAILED;
        }
        self
    }

    // Cancelled and closed; came-out goes off unless it stays.
    pub fn cancelled_by(mut self, stays: bool) -> Carrier
        ensures { result ≡ cancelled_by stays self }
    {
        self.opened = CLOSED;
        self.cancelled = ON;
        if !stays {
            self.cameout = OFF;
        }
        self
    }

    // Out of the buffer to port p.
    pub fn taken_out(mut self, p: u8) -> Carrier
        ensures { result ≡ taken_out p self }
    {
        self.place = AT_PORT;
        self.spot = NO_SPOT;
        self.port = p;
        self.cameout = ON;
        self
    }

    // Came-out goes off.
    pub fn taken_back(mut self) -> Carrier
        ensures { result ≡ taken_back self }
    {
        self.cameout = OFF;
        self
    }

    // In the buffer place b, tied to no port.
    pub fn moved_in(mut self, b: u8) -> Carrier
        ensures { result ≡ moved_in b self }
    {
        self.place = IN_BUFFER;
        self.spot = b;
        self.port = NO_PORT;
        self
    }

    // Open or closed.
    pub fn with_opened(mut self, v: u8) -> Carrier
        ensures { result ≡ with_opened v self }
    {
        self.opened = v;
        self
    }

    // The map kept, slot status set.
    pub fn with_map(mut self, m: [u8; SLOTS], v: u8) -> Carrier
        ensures { result ≡ with_map m v self }
    {
        self.map = m;
        self.slot = v;
        self
    }

    // Accessing set.
    pub fn with_accessing(mut self, v: u8) -> Carrier
        ensures { result ≡ with_accessing v self }
    {
        self.accessing = v;
        self
    }
}
