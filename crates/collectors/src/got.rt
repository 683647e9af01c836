// Where a collector stands in its trees, the children that it has left, and how far it got. A collector of one tree looks at that
// one's place alone, and gives 0 for the other.
ghost use Rattle.std.specs.Prelude.{◌≡◌, ◌+◌};
ghost use Rattle.collectors.specs.Gets.{read_to, left, Room};

use crate::path::Way;
use state::kids::Kids;
use statements::Out;

// A node of each tree, of one type, and how many items lead there.
#[derive(Clone, Copy)]
pub struct Cursor {
    pub first: usize,
    pub second: usize,
    pub typ: usize,
    pub depth: usize,
}

// The children that are left of a node of each tree: the places of the next, which parts they are, the way from the node to the
// next, and how many items lead to the node.
#[derive(Clone, Copy)]
pub struct Children {
    pub first: usize,
    pub second: usize,
    pub kids: Kids,
    pub way: Way,
    pub depth: usize,
}

// Those behind the next, which ends at these places.
pub fn left(k: Children, first: usize, second: usize) -> Children
    requires { Room k }
    ensures { result ≡ left k first second }
{
    let ks = k.kids;
    let w = k.way;
    Children {
        first,
        second,
        kids: Kids {
            first: ks.first + 1,
            count: ks.count - 1,
            ..ks
        },
        way: Way {
            child: w.child + 1,
            ..w
        },
        ..k
    }
}

// Just past the trees read, and what is recorded.
#[derive(Clone, Copy)]
pub struct Got {
    pub first: usize,
    pub second: usize,
    pub out: Out,
}

// The trees are read up to here.
pub fn reached(first: usize, second: usize, out: Out) -> Got
    ensures { result ≡ read_to first second out }
{
    Got { first, second, out }
}
