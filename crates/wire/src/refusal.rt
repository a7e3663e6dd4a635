// Document 01, "Numbers returned", and document 02's later numbers. specs/Numbers.antt has the number of each case.
ghost use Rattle.std.specs.Prelude.{◌≡◌, [], ◌∷◌};
ghost use Rattle.wire.specs.Numbers.{done, number_of, number_by, collision};

// Why a call is refused. A refused call changes nothing.
#[derive(Clone, Copy, PartialEq, Eq)]
pub enum Refusal {
    // Packet short.
    Short,
    // No header.
    Header,
    // Packet too long.
    Long,
    // Wrong sum.
    Sum,
    // Output buffer too small.
    Room,
    // Argument off its range.
    Range,
    // An exchange is open.
    Busy,
    // Nothing to report on.
    Idle,
    // Walk not ended; "next" or "ask" not due.
    NotDue,
    // Node not 1 to n.
    NoNode,
    // Leader wish, while another node leads that group or has its place in doubt.
    Led,
    // Session closed.
    Closed,
    // A sheet's line is not of its form or count.
    Line,
    // A recording's times and bytes differ in number.
    Uneven,
    // A time is less than the one before in its capture.
    Backward,
    // The kind of a node that the command may reach lacks it.
    Lacked,
    // A divisor that the manual of a kind on the chain doesn't list.
    Divisor,
    // Set Baud Rate that a node might answer: a known member leads the group, or a place is in doubt.
    Answerable,
}

// A call that is done.
pub const DONE: u8 = 0;

// Several nodes replied: no refusal, the nodes keep their changes.
pub const COLLISION: u8 = 13;

// Nobody calls it: it holds the two to the paper's table, since no contract can name a constant.
fn constants() -> [u8; 2]
    ensures { result ≡ done ∷ collision ∷ [] }
{
    [DONE, COLLISION]
}

impl Refusal {
    pub fn number(self) -> u8
        ensures { result ≡ number_of self }
    {
        match self {
            Refusal::Short => 1,
            Refusal::Header => 2,
            Refusal::Long => 3,
            Refusal::Sum => 4,
            Refusal::Room => 5,
            Refusal::Range => 6,
            Refusal::Busy => 7,
            Refusal::Idle => 8,
            Refusal::NotDue => 9,
            Refusal::NoNode => 10,
            Refusal::Led => 11,
            Refusal::Closed => 12,
            Refusal::Line => 14,
            Refusal::Uneven => 15,
            Refusal::Backward => 16,
            Refusal::Lacked => 17,
            Refusal::Divisor => 18,
            Refusal::Answerable => 19,
        }
    }
}

// The paper's number of what a call answers: 0 for what it found or did, or the refusal's own.
pub fn number<T: Copy>(answer: Result<T, Refusal>) -> u8
    ensures { result ≡ number_by answer }
{
    match answer {
        Ok(_) => DONE,
        Err(why) => why.number(),
    }
}
