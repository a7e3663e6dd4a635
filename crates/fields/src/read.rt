// Fields of a line's bytes. Every place may be asked for: past the end is a 0.
ghost use Rattle.std.specs.Prelude.{◌≡◌, drop};
ghost use Rattle.fields.specs.Field.{fields_byte, fields_word, triple_of, fields_long};
ghost use Rattle.fields.specs.Lending.{fields_filled, room_field, room_of, is_lending};

// The byte at a position.
pub fn byte(s: &[u8], at: usize) -> u8
    ensures { result ≡ fields_byte s.now at }
{
    s.get(at).copied().unwrap_or(0)
}

// The two bytes from a position on, least significant first.
pub fn word(s: &[u8], at: usize) -> u16
    ensures { result ≡ fields_word s.now at }
{
    let pair = text::rest(s, at);
    u16::from_le_bytes([byte(pair, 0), byte(pair, 1)])
}

// Three bytes.
pub fn triple(s: &[u8], at: usize) -> usize
    ensures { result ≡ triple_of s.now at }
{
    let three = text::rest(s, at);
    u32::from_le_bytes([byte(three, 0), byte(three, 1), byte(three, 2), 0]) as usize
}

// Four bytes.
pub fn long(s: &[u8], at: usize) -> u32
    ensures { result ≡ fields_long s.now at }
{
    let four = text::rest(s, at);
    u32::from_le_bytes([byte(four, 0), byte(four, 1), byte(four, 2), byte(four, 3)])
}

// The most that a line may lend.
pub const MOST_ROOM: usize = 0x40;

// The most where its room is two bytes.
pub const MOST_WORD_ROOM: usize = 0x200;

// And where it is three.
pub const MOST_TRIPLE_ROOM: usize = 0x18000;

// A buffer that a line lends, filled with 55: the largest of its kind of line.
pub fn filled<const N: usize>() -> [u8; N]
    ensures { result ≡ fields_filled N }
{
    [0x55; N]
}

// What stands at the room's place: its first bytes, as many as the most has.
fn room_field(args: &[u8], most: usize) -> usize
    ensures { result ≡ room_field args.now most }
{
    match most {
        0..=0xFF => usize::from(byte(args, 0)),
        0x100..=0xFFFF => usize::from(word(args, 0)),
        _ => triple(args, 0),
    }
}

// The room that a line lends; none where it is above the most.
pub fn room(args: &[u8], most: usize) -> usize
    ensures { result ≡ room_of args.now most }
{
    let room = room_field(args, most);
    if room <= most { room } else { 0 }
}

// Whether a line has so many bytes, the first of them a room within the most.
pub fn is_lending(args: &[u8], least: usize, most: usize) -> bool
    ensures { result ≡ is_lending args.now least most }
{
    least <= args.len() && room_field(args, most) <= most
}
