// Individual and group addresses: two types, so that neither is ever taken for the other.
ghost use Rattle.std.specs.Prelude.{◌≡◌};
ghost use Rattle.wire.specs.Address.{address_of, byte_of, in_range, individual_in_range, group_in_range};

// An individual address, 0x00 to 0x7F.
#[derive(Clone, Copy, PartialEq, Eq)]
pub struct Individual(pub u8);

// A group address, 0x80 to 0xFF.
#[derive(Clone, Copy, PartialEq, Eq)]
pub struct Group(pub u8);

// What an address byte names.
#[derive(Clone, Copy, PartialEq, Eq)]
pub enum Address {
    Individual(Individual),
    Group(Group),
}

impl Individual {
    // A caller can make one of any byte: this is the test of its range.
    pub fn in_range(self) -> bool
        ensures { result ≡ individual_in_range self.0 }
    {
        self.0 < 0x80
    }
}

impl Group {
    // A caller can make one of any byte: this is the test of its range.
    pub fn in_range(self) -> bool
        ensures { result ≡ group_in_range self.0 }
    {
        0x80 <= self.0
    }
}

impl Address {
    // The address that a byte names, by its bit 7.
    pub fn of(byte: u8) -> Address
        ensures { result ≡ address_of byte }
    {
        if byte < 0x80 {
            Address::Individual(Individual(byte))
        } else {
            Address::Group(Group(byte))
        }
    }

    // Whether it is of its range, so that its byte names it and nothing else.
    pub fn in_range(self) -> bool
        ensures { result ≡ in_range self }
    {
        match self {
            Address::Individual(i) => i.in_range(),
            Address::Group(g) => g.in_range(),
        }
    }

    // The byte on the line.
    pub fn byte(self) -> u8
        ensures { result ≡ byte_of self }
    {
        match self {
            Address::Individual(i) => i.0,
            Address::Group(g) => g.0,
        }
    }
}
