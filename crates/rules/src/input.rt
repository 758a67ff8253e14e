// An input as it was sent.

// Its number, its port, its second number, its name and its codes: whatever was sent.
#[derive(Clone, Copy)]
pub struct Input<'a> {
    pub number: u32,
    pub port: u32,
    pub value: u32,
    pub name: &'a [u8],
    pub codes: &'a [u8],
}
