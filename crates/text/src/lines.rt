// Parts of a text: its first bytes, the rest, its first line.
ghost use Rattle.std.specs.Prelude.{◌≡◌, length, take, drop};
ghost use Rattle.wire.specs.Part.{Part};
ghost use Rattle.text.specs.Lines.{first_line};

// A newline ends each line; the last may lack it.
pub const NEWLINE: u8 = 10;

// The first n bytes of s; all of them where it has fewer.
pub fn first(s: &[u8], n: usize) -> &[u8]
    ensures { Part s.entry 0 (take n s.now) result }
{
    if n <= s.len() {
        return &s[..n];
    }
    s
}

// What is left of s from `at` on; nothing where that is past its end.
pub fn rest(s: &[u8], at: usize) -> &[u8]
    ensures { Part s.entry at (drop at s.now) result }
{
    if at <= s.len() {
        return &s[at..];
    }
    let end = s.len();
    &s[end..]
}

// How many bytes the first line of s has, without its newline.
fn line_length(s: &[u8]) -> usize
    ensures { result ≡ length (first_line s.now) }
{
    s.iter().position(|b| *b == NEWLINE).unwrap_or(s.len())
}

// The first line of s, without its newline. The next one starts one byte behind its end.
#[tactic(auto, using(crate::proofs::Parts::line_taken))]
pub fn first_line(s: &[u8]) -> &[u8]
    ensures { Part s.entry 0 (first_line s.now) result }
{
    let n = line_length(s);
    first(s, n)
}
