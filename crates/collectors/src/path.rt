// The place of the node that a collector stands at: a root and elements, in two lent arrays.
ghost use Rattle.std.specs.Prelude.{◌+◌, ◌≤◌, ◌<◌};
ghost use Rattle.moments.specs.Lent.{after};
ghost use Rattle.collectors.specs.Trail.{Long, Short, Added, Hopped};

use mir::items::{DEREF, DOWNCAST, FIELD};
use statements::small;
use type_record::kinds::Kind;

// The item behind the first n.
pub fn set_item(ops: &mut [u32], args: &mut [u32], n: usize, op: u32, arg: usize)
    requires long { Long ops.old args.old }
    requires n_bound { n < 130 }
    requires arg_bound { arg < 4294967296 }
    ensures { Added ops.old args.old ops.new args.new n op arg }
{
    ops[n] = op;
    args[n] = small(arg);
}

// From a node of this kind, open at this variant, to one of its children; full: below an enum the variant is named.
#[derive(Clone, Copy)]
pub struct Way {
    pub full: bool,
    pub kind: Kind,
    pub variant: usize,
    pub child: usize,
}

// The way w behind the first n items. The length after.
pub fn hop(ops: &mut [u32], args: &mut [u32], n: usize, w: Way) -> usize
    requires long { Long ops.old args.old }
    requires n_bound { n + 2 ≤ 130 }
    requires short { Short w }
    ensures { Hopped ops.old args.old ops.new args.new n w result }
{
    if w.kind.pointer() {
        set_item(ops, args, n, DEREF, 0);
        return n + 1;
    }
    if w.full && w.kind == Kind::Enum {
        set_item(ops, args, n, DOWNCAST, w.variant);
        set_item(ops, args, n + 1, FIELD, w.child);
        return n + 2;
    }
    set_item(ops, args, n, FIELD, w.child);
    n + 1
}
