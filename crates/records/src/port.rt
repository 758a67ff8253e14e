// A port record answers each input with the port that follows it.
// Some are alike but for the fields that they set: which these are is what each definition says, and no parameter can name a field.
ghost use Rattle.std.specs.Prelude.{◌≡◌};
ghost use Rattle.records.specs.Ports.{no_port, new_port, bound_to, unbound, to_unload, handed_out, to_blocked};
ghost use Rattle.records.specs.Ports.{start_load, loaded, not_loaded, tag_read, tag_not_read, emptied};
ghost use Rattle.records.specs.Ports.{start_unload, not_unloaded};
ghost use Rattle.records.specs.Fields.{tied_to, with_access, with_transfer, with_reserved};

use crate::name::Name;
use crate::words::*;

// tie: a carrier's name, or all zeros; the states are in `words`.
#[repr(C)]
#[derive(Clone, Copy)]
pub struct Port {
    pub transfer: u8,
    pub access: u8,
    pub reserved: u8,
    pub tie: Name,
    pub movement: u8,
    pub pod: u8,
    pub tag: u8,
}

impl Port {
    pub fn none() -> Port
        ensures { result ≡ no_port }
    {
        Port {
            transfer: 0,
            access: 0,
            reserved: 0,
            tie: Name::none(),
            movement: 0,
            pod: 0,
            tag: 0,
        }
    }

    // At set-up.
    pub fn fresh() -> Port
        ensures { result ≡ new_port }
    {
        Port {
            transfer: READY_TO_LOAD,
            access: MANUAL,
            reserved: NOT_RESERVED,
            tie: Name::none(),
            movement: IDLE,
            pod: NO_POD,
            tag: TAG_UNREAD,
        }
    }

    // Tied to a carrier, and reserved for it.
    pub fn bound_to(mut self, n: Name) -> Port
        ensures { result ≡ bound_to n self }
    {
        self.reserved = RESERVED;
        self.tie = n;
        self
    }

    // Tie and reservation go.
    pub fn unbound(mut self) -> Port
        ensures { result ≡ unbound self }
    {
        self.reserved = NOT_RESERVED;
        self.tie = Name::none();
        self
    }

    // Tied to a carrier.
    pub fn tied_to(mut self, n: Name) -> Port
        ensures { result ≡ tied_to n self }
    {
        self.tie = n;
        self
    }

    // READY TO UNLOAD.
    pub fn to_unload(mut self) -> Port
        ensures { result ≡ to_unload self }
    {
        self.transfer = READY_TO_UNLOAD;
        self
    }

    // A carrier out of the buffer stands here, to be unloaded.
    pub fn handed_out(mut self, n: Name) -> Port
        ensures { result ≡ handed_out n self }
    {
        self.transfer = READY_TO_UNLOAD;
        self.tie = n;
        self.pod = POD_PRESENT;
        self.tag = TAG_READ;
        self
    }

    // TRANSFER BLOCKED.
    pub fn to_blocked(mut self) -> Port
        ensures { result ≡ to_blocked self }
    {
        self.transfer = BLOCKED;
        self
    }

    // Access mode set.
    pub fn with_access(mut self, v: u8) -> Port
        ensures { result ≡ with_access v self }
    {
        self.access = v;
        self
    }

    // Transfer state set.
    pub fn with_transfer(mut self, v: u8) -> Port
        ensures { result ≡ with_transfer v self }
    {
        self.transfer = v;
        self
    }

    // Reservation set.
    pub fn with_reserved(mut self, v: u8) -> Port
        ensures { result ≡ with_reserved v self }
    {
        self.reserved = v;
        self
    }

    // BLOCKED, loading, the reservation ends, the tie stays.
    pub fn start_load(mut self) -> Port
        ensures { result ≡ start_load self }
    {
        self.transfer = BLOCKED;
        self.reserved = NOT_RESERVED;
        self.movement = LOADING;
        self
    }

    // Idle, pod present, tag unread.
    pub fn loaded(mut self) -> Port
        ensures { result ≡ loaded self }
    {
        self.movement = IDLE;
        self.pod = POD_PRESENT;
        self.tag = TAG_UNREAD;
        self
    }

    // Idle, READY TO LOAD.
    pub fn not_loaded(mut self) -> Port
        ensures { result ≡ not_loaded self }
    {
        self.transfer = READY_TO_LOAD;
        self.movement = IDLE;
        self
    }

    // Tag read, tied to a carrier.
    pub fn tag_read(mut self, n: Name) -> Port
        ensures { result ≡ tag_read n self }
    {
        self.tie = n;
        self.tag = TAG_READ;
        self
    }

    // Tag failed.
    pub fn tag_not_read(mut self) -> Port
        ensures { result ≡ tag_not_read self }
    {
        self.tag = TAG_FAILED;
        self
    }

    // Idle, no pod, tag unread, no tie, READY TO LOAD.
    pub fn emptied(mut self) -> Port
        ensures { result ≡ emptied self }
    {
        self.transfer = READY_TO_LOAD;
        self.tie = Name::none();
        self.movement = IDLE;
        self.pod = NO_POD;
        self.tag = TAG_UNREAD;
        self
    }

    // BLOCKED, unloading.
    pub fn start_unload(mut self) -> Port
        ensures { result ≡ start_unload self }
    {
        self.transfer = BLOCKED;
        self.movement = UNLOADING;
        self
    }

    // Idle, READY TO UNLOAD.
    pub fn not_unloaded(mut self) -> Port
        ensures { result ≡ not_unloaded self }
    {
        self.transfer = READY_TO_UNLOAD;
        self.movement = IDLE;
        self
    }
}
