// The lines of a text, one by one.
ghost use Rattle.std.specs.Prelude.{◌≡◌};
ghost use Rattle.std.specs.Iterator.{YieldsFirstRef, item_count};
ghost use Rattle.text.specs.Lines.{lines_of};
ghost use Rattle.text.specs.Each.{lines_left};

use crate::lines::{first_line, rest};

// The lines of a text that are still to come, without their newlines.
#[derive(Clone, Copy)]
pub struct Lines<'a> {
    pub text: &'a [u8],
}

impl<'a> Lines<'a> {
    // All lines of a text.
    pub fn of(text: &'a [u8]) -> Lines<'a>
        ensures { lines_left result ≡ lines_of text.now }
    {
        Lines { text }
    }
}

impl<'a> Iterator for Lines<'a> {
    type Item = &'a [u8];

    ghost next_gives = { YieldsFirstRef lines_left };

    ghost remaining = { item_count lines_left };

    fn next(&mut self) -> Option<&'a [u8]> {
        let text = self.text;
        if text.is_empty() {
            return None;
        }
        let line = first_line(text);
        // Behind the line, and behind its newline.
        self.text = rest(rest(text, line.len()), 1);
        Some(line)
    }
}
