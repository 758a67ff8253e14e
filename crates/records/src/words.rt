// Document 01's words for the numbers of states; why an input is refused is in `refusal`. The models of reports are numbers in
// its rows, and so in the code: 1 transfer, 2 access, 3 reservation, 4 tie, 5 ID, 6 slot, 7 accessing.
// States are numbers and no enums: the C interface (`hm_waiting`, a lent tool) hands any byte, and `sound` judges it.

// a port's transfer; BLOCKED is TRANSFER BLOCKED
pub const OUT_OF_SERVICE: u8 = 0;

pub const READY_TO_LOAD: u8 = 1;

pub const READY_TO_UNLOAD: u8 = 2;

pub const BLOCKED: u8 = 3;

// its access, and whether it is reserved
pub const MANUAL: u8 = 0;

pub const AUTO: u8 = 1;

pub const NOT_RESERVED: u8 = 0;

pub const RESERVED: u8 = 1;

// its tie, as it is reported
pub const NOT_TIED: u8 = 0;

pub const TIED: u8 = 1;

// its movement: IDLE is none
pub const IDLE: u8 = 0;

pub const LOADING: u8 = 1;

pub const UNLOADING: u8 = 2;

// its pod, and the pod's tag
pub const NO_POD: u8 = 0;

pub const POD_PRESENT: u8 = 1;

pub const TAG_UNREAD: u8 = 0;

pub const TAG_READ: u8 = 1;

pub const TAG_FAILED: u8 = 2;

// a carrier's place; its spot where it is in no buffer place; its port where it is tied to none
pub const EXPECTED: u8 = 0;

pub const AT_PORT: u8 = 1;

pub const IN_BUFFER: u8 = 2;

pub const NO_SPOT: u8 = 0;

pub const NO_PORT: u8 = 0;

// opened; cancelled and came-out
pub const CLOSED: u8 = 0;

pub const OPEN: u8 = 1;

pub const OFF: u8 = 0;

pub const ON: u8 = 1;

// its ID status and its slot status, WAITING being WAITING FOR HOST; where there is no record, NO_STATE
pub const NO_STATE: u8 = 0;

pub const NOT_READ: u8 = 1;

pub const WAITING: u8 = 2;

pub const OK: u8 = 3;

pub const FAILED: u8 = 4;

// its accessing
pub const NOT_ACCESSED: u8 = 1;

pub const IN_ACCESS: u8 = 2;

pub const COMPLETE: u8 = 3;

pub const STOPPED: u8 = 4;

// the values of ChangeServiceStatus and of AccessEnd
pub const SERVICE_OUT: u8 = 0;

pub const SERVICE_IN: u8 = 1;

pub const ACCESS_END_COMPLETE: u8 = 0;

pub const ACCESS_END_STOPPED: u8 = 1;
