// What a row may look at, and what it does. Flags and positions stand beside what they tell of, since `see` fills them and
// the rows of specs/ and `enact` read them one by one, as in `when x.known 3`.
use records::carrier::Carrier;
use records::name::Name;
use records::port::Port;
use records::sizes::SLOTS;

#[derive(Clone, Copy)]
pub struct Seen {
    // how many buffer places and records the tool has
    pub places: u8,
    pub count: usize,
    // the input's port and second number, 255 standing for all that is larger: whether it is a port of the tool, or none is given
    pub port: u8,
    pub isport: bool,
    pub noport: bool,
    pub value: u8,
    // its name: whether it is a name, or none is given; its codes: whether they are a slot map
    pub name: Name,
    pub named: bool,
    pub blank: bool,
    pub map: [u8; SLOTS],
    pub mapped: bool,
    // the port given
    pub here: Port,
    // where the name's record stands, whether it has one, the record, and the port it is tied to
    pub stands: usize,
    pub known: bool,
    pub found: Carrier,
    pub home: Port,
    // where the record stands that the port given is tied to, whether there is one, and the record
    pub holds: usize,
    pub tied: bool,
    pub held: Carrier,
    // 16 are expected already; the buffer place given is taken; some carrier is open
    pub full: bool,
    pub taken: bool,
    pub busy: bool,
}

// The port that changes (0: none) and what it becomes; the position of the record that goes, that of the record that
// changes, the record that follows it, and whether that one is new. The number of records stands for no position.
#[derive(Clone, Copy)]
pub struct Effect {
    pub port: u8,
    pub becomes: Port,
    pub goes: usize,
    pub changes: usize,
    pub next: Carrier,
    pub made: bool,
}
