// What a row sees of expected maps.

// Whether the input's codes are an expected map or none, and whether they equal the map that the name's record keeps.
#[derive(Clone, Copy)]
pub struct Codes {
    pub fine: bool,
    pub equal: bool,
}

// the codes of an expected map: empty, and correctly occupied
pub const EMPTY: u8 = 1;

pub const OCCUPIED: u8 = 3;
