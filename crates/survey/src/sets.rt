// Sets of nodes: bit i stands for node i, in the order of the cable.
ghost use Rattle.std.specs.Prelude.{◌≡◌};
ghost use Rattle.survey.specs.Sets.{join_of, first_of, without_first, members};
ghost use Rattle.survey.specs.Chain.{search_of};

// Who replies: nobody, the node of an index, or several. The paper names this form: "a loop over nodes yielding by break none, one index or collision".
#[derive(Clone, Copy)]
pub enum Replier {
    None,
    One(usize),
    Several,
}

// The set with the node whose bit is `weight`, if it is to join.
pub(crate) fn join(set: u32, weight: u32, joins: bool) -> u32
    ensures { result ≡ join_of set weight joins }
{
    if joins {
        return set.wrapping_add(weight);
    }
    set
}

// The first node of the set, if it has one.
pub fn first(set: u32) -> Option<usize>
    ensures { result ≡ first_of set }
{
    if set == 0 {
        return None;
    }
    Some(set.trailing_zeros() as usize)
}

// The set without its first node.
pub fn without_first(set: u32) -> u32
    ensures { result ≡ without_first set }
{
    if set == 0 {
        return 0;
    }
    set - (1 << set.trailing_zeros())
}

// The chain is searched in order, node 0 to n - 1, and left at the second replier; at the first, where nobody behind it replies.
// Whether node i replies was seen before: it is bit i of `replying`. The paper names the loop with `break`, so it is no iterator's method.
pub(crate) fn search(replying: u32, n: usize) -> Replier
    ensures { result ≡ search_of (members n replying) }
{
    let mut rest = replying;
    let mut found = Replier::None;
    let mut i: usize = 0;
    loop {
        if n <= i {
            break found;
        }
        if rest % 2 == 1 {
            match found {
                Replier::None => {
                    found = Replier::One(i);
                }
                _ => {
                    break Replier::Several;
                }
            }
            if rest == 1 {
                break found;
            }
        }
        rest /= 2;
        i += 1;
    }
}
