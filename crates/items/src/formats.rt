// The formats that are accepted, each by its code: the size of an element, and which hold one value.
ghost use Rattle.std.specs.Prelude.{◌≡◌, ◌≤◌};
ghost use Rattle.items.specs.Formats.{code, format_of, size_of, is_unsigned, is_number, holds_one, uneven};

// A code is six bits, written in octal as in SEMI E5.
#[derive(Clone, Copy, PartialEq, Eq)]
pub enum Format {
    List = 0o00,
    Binary = 0o10,
    Boolean = 0o11,
    Ascii = 0o20,
    I8 = 0o30,
    I1 = 0o31,
    I2 = 0o32,
    I4 = 0o34,
    F8 = 0o40,
    F4 = 0o44,
    U8 = 0o50,
    U1 = 0o51,
    U2 = 0o52,
    U4 = 0o54,
}

impl Format {
    pub fn code(self) -> usize
        ensures { result ≡ code self }
    {
        self as usize
    }

    // The format of a code, if it is one that is accepted.
    #[tactic(auto, unfolding(crate::specs::Formats::coded))]
    pub fn of(code: usize) -> Option<Format>
        ensures { result ≡ format_of code }
    {
        match code {
            0o00 => Some(Format::List),
            0o10 => Some(Format::Binary),
            0o11 => Some(Format::Boolean),
            0o20 => Some(Format::Ascii),
            0o30 => Some(Format::I8),
            0o31 => Some(Format::I1),
            0o32 => Some(Format::I2),
            0o34 => Some(Format::I4),
            0o40 => Some(Format::F8),
            0o44 => Some(Format::F4),
            0o50 => Some(Format::U8),
            0o51 => Some(Format::U1),
            0o52 => Some(Format::U2),
            0o54 => Some(Format::U4),
            _ => None,
        }
    }

    // The bytes of one element; a list's length counts its elements one by one.
    #[tactic(auto, unfolding(crate::specs::Formats::size_of))]
    pub fn size(self) -> usize
        ensures { result ≡ size_of (code self) }
    {
        match self {
            Format::I2 | Format::U2 => 2,
            Format::I4 | Format::F4 | Format::U4 => 4,
            Format::I8 | Format::F8 | Format::U8 => 8,
            _ => 1,
        }
    }

    pub fn is_unsigned(self) -> bool
        ensures { result ≡ is_unsigned (code self) }
    {
        matches!(self, Format::U1 | Format::U2 | Format::U4 | Format::U8)
    }

    // A number or boolean, whose items hold one value.
    #[tactic(auto, unfolding(crate::specs::Formats::size_of, crate::specs::Formats::is_number))]
    pub fn is_number(self) -> bool
        ensures { result ≡ is_number (code self) }
    {
        !matches!(self, Format::List | Format::Binary | Format::Ascii)
    }
}

// The bytes of one element, 0 for an unknown code.
#[tactic(auto, using(crate::proofs::Coded::of_some, crate::proofs::Coded::none_size))]
pub fn size_of(code: usize) -> usize
    ensures { result ≡ size_of code }
{
    match Format::of(code) {
        Some(format) => format.size(),
        None => 0,
    }
}

#[tactic(auto, using(crate::proofs::Coded::of_some, crate::proofs::Coded::none_unsigned))]
pub fn is_unsigned(code: usize) -> bool
    ensures { result ≡ is_unsigned code }
{
    match Format::of(code) {
        Some(format) => format.is_unsigned(),
        None => false,
    }
}

// A number or boolean item holds one value.
#[tactic(auto, using(crate::proofs::Coded::of_some, crate::proofs::Coded::none_number), unfolding(crate::specs::Formats::holds_one))]
pub fn holds_one(code: usize, many: usize) -> bool
    ensures { result ≡ holds_one code many }
{
    match Format::of(code) {
        Some(format) => !format.is_number() || many == format.size(),
        None => true,
    }
}

// A length is no multiple of the element size.
#[tactic(auto, unfolding(crate::specs::Formats::uneven))]
pub fn uneven(many: usize, size: usize) -> bool
    ensures { result ≡ uneven many size }
{
    size != 0 && many % size != 0
}
