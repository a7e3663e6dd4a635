// The bytes that a line is answered. What is put past their room is not written.
ghost use Rattle.std.specs.Prelude.{◌≡◌};
ghost use Rattle.fields.specs.Answer.{fields_nothing, answer_put, answer_put_flag, answer_put_word, answer_put_triple, answer_put_long, answer_put_all, malformed_of, numbered_of, valued_of};

// The longest answer: number, length, 64 bytes of a lent buffer, 33 node records of 65 bytes.
pub const MOST_BYTES: usize = 2211;

// What a line is answered: the first `length` bytes. A length beside the bytes, since there is no heap here, and `put` has no way to fail.
#[derive(Clone, Copy)]
pub struct Answer {
    pub bytes: [u8; MOST_BYTES],
    pub length: usize,
}

// No bytes yet.
pub fn nothing() -> Answer
    ensures { result ≡ fields_nothing }
{
    Answer {
        bytes: [0; MOST_BYTES],
        length: 0,
    }
}

impl Answer {
    // With one byte more.
    pub fn put(mut self, b: u8) -> Answer
        ensures { result ≡ answer_put self b }
    {
        if self.length < MOST_BYTES {
            self.bytes[self.length] = b;
            self.length += 1;
        }
        self
    }

    // With a flag more: 00 or 01.
    pub fn put_flag(self, set: bool) -> Answer
        ensures { result ≡ answer_put_flag self set }
    {
        self.put(u8::from(set))
    }

    // With two bytes more, the least significant first.
    pub fn put_word(self, word: u16) -> Answer
        ensures { result ≡ answer_put_word self word }
    {
        let [low, high] = word.to_le_bytes();
        self.put(low).put(high)
    }

    // With three bytes more: of a larger number its lowest three.
    pub fn put_triple(self, triple: usize) -> Answer
        ensures { result ≡ answer_put_triple self triple }
    {
        let [low, middle, high, ..] = triple.to_le_bytes();
        self.put(low).put(middle).put(high)
    }

    // With four bytes more.
    pub fn put_long(self, long: u32) -> Answer
        ensures { result ≡ answer_put_long self long }
    {
        let [b0, b1, b2, b3] = long.to_le_bytes();
        self.put(b0).put(b1).put(b2).put(b3)
    }

    // With these bytes more.
    pub fn put_all(self, bytes: &[u8]) -> Answer
        ensures { result ≡ answer_put_all self bytes.now }
    {
        // By `for`: a fold hands the whole answer on by value at each byte, and was measured at 1.4 times the time.
        let mut all = self;
        for b in bytes {
            all = all.put(*b);
        }
        all
    }
}

// What a line is answered that is not of its form.
pub fn malformed() -> Answer
    ensures { result ≡ malformed_of }
{
    nothing().put(0xFF)
}

// `NN bytes..`.
pub fn numbered(number: u8, bytes: &[u8]) -> Answer
    ensures { result ≡ numbered_of number bytes.now }
{
    nothing().put(number).put_all(bytes)
}

// `NN value(2) bytes..`.
pub fn valued(number: u8, value: usize, bytes: &[u8]) -> Answer
    ensures { result ≡ valued_of number value bytes.now }
{
    nothing()
        .put(number)
        .put_word((value % 65536) as u16)
        .put_all(bytes)
}
