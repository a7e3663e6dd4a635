// The first line of a recording: the number of nodes, alone or with the kind of each.
use hexadecimal::SPACE;
use wire::{Kind, MOST_NODES};

// The nodes that it tells of: how many, and their kinds.
#[derive(Clone, Copy)]
pub(crate) struct Nodes {
    pub(crate) n: u8,
    pub(crate) kinds: [Kind; MOST_NODES],
}

// The node count that a word is.
fn node_count(word: &[u8]) -> Option<u8> {
    match text::read_decimal(word) {
        Some(n) => {
            if n < 1 || MOST_NODES < n as usize {
                return None;
            }
            Some(n)
        }
        None => None,
    }
}

// The kind that a word names.
fn kind_of(word: &[u8]) -> Option<Kind> {
    if text::is_same(word, b"gate") {
        return Some(Kind::Gate);
    }
    if text::is_same(word, b"drive") {
        return Some(Kind::Drive);
    }
    None
}

// The nodes that a line tells of, if it is of its form: each an LS-773 where it tells no kinds.
pub(crate) fn read(line: &[u8]) -> Option<Nodes> {
    let mut words = line.split(|b| *b == SPACE);
    let n = node_count(words.next()?)?;
    let mut kinds = [Kind::Gate; MOST_NODES];
    let mut told = 0;
    for word in words {
        let kind = kind_of(word)?;
        if MOST_NODES <= told {
            return None;
        }
        kinds[told] = kind;
        told += 1;
    }
    if told == 0 || told == n as usize {
        return Some(Nodes { n, kinds });
    }
    None
}
