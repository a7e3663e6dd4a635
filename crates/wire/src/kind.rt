// Document 02, request 6: each node has a kind, told to the host at power-up.
ghost use Rattle.std.specs.Prelude.{◌≡◌};
ghost use Rattle.wire.specs.Kind.{is_gate};

// A gate is an LS-773, a drive an LS-173AP.
#[derive(Clone, Copy, PartialEq, Eq)]
pub enum Kind {
    Gate,
    Drive,
}

impl Kind {
    pub fn is_gate(self) -> bool
        ensures { result ≡ is_gate self }
    {
        match self {
            Kind::Gate => true,
            Kind::Drive => false,
        }
    }
}
