// What a return owes of a tree, over preorder arrays: the first tree of a cursor.
ghost use Rattle.std.specs.Prelude.{◌+◌, ◌<◌};
ghost use Rattle.model.specs.Types.{ntypes};
ghost use Rattle.statements.specs.Kept.{Counted};
ghost use Rattle.collectors.specs.Trail.{trail, Long, Keeps};
ghost use Rattle.collectors.specs.Gets.{types_of, ways, Siblings, Stands, StandAll, Owing, OwingAll};

use crate::got::{Children, Cursor, Got, left, reached};
use crate::path::{Way, hop, set_item};
use mir::items::DEREF;
use state::kids::kids_of;
use state::nodes::node_end;
use statements::{FOLD, Out, record};
use type_record::kinds::Kind;
use type_record::types::Types;

// What a return owes of the tree at the cursor.
#[cycle(folds_fields_folds_node)]
pub fn folds_node<'a>(
    types: &Types,
    forms: &'a [u16],
    whats: &'a [u16],
    c: Cursor,
    ops: &mut [u32],
    args: &mut [u32],
    out: &mut [u32],
    o: Out,
) -> Got
    requires typ_bound { c.typ < ntypes types.now.words.now }
    requires stands { Stands types.now.words.now forms.now whats.now c.first c.typ c.depth }
    requires long { Long ops.old args.old }
    requires counted { Counted out.old o }
    ensures keeps { Keeps ops.old args.old ops.new args.new c.depth }
    ensures owing { Owing types.now.words.now out.old o out.new result (trail ops.old args.old c.depth) forms.now whats.now c.first c.typ }
{
    let i = c.first;
    let next = i + 1;
    if forms[i] == 0 {
        return reached(next, 0, o);
    }
    let kind = types.kind_at(c.typ);
    if kind == Kind::Pointer {
        let e = node_end(types, forms, whats, i, c.typ);
        return reached(e, 0, o);
    }
    if kind == Kind::Reference {
        set_item(ops, args, c.depth, DEREF, 0);
        let r = record(out, o, FOLD, 0, ops, args, c.depth + 1);
        let e = node_end(types, forms, whats, i, c.typ);
        return reached(e, 0, r);
    }
    let w = whats[i];
    let k = Children {
        first: next,
        second: 0,
        kids: kids_of(types, c.typ, w),
        way: Way {
            full: true,
            kind,
            variant: usize::from(w),
            child: 0,
        },
        depth: c.depth,
    };
    folds_fields(types, forms, whats, k, ops, args, out, o)
}

// The same of the children that are left.
#[cycle(folds_fields_folds_node)]
fn folds_fields<'a>(
    types: &Types,
    forms: &'a [u16],
    whats: &'a [u16],
    k: Children,
    ops: &mut [u32],
    args: &mut [u32],
    out: &mut [u32],
    o: Out,
) -> Got
    requires siblings { Siblings types.now.words.now k }
    requires stand_all { StandAll types.now.words.now forms.now whats.now k.first (types_of types.now.words.now k.kids) (k.depth + 2) }
    requires long { Long ops.old args.old }
    requires counted { Counted out.old o }
    ensures keeps { Keeps ops.old args.old ops.new args.new k.depth }
    ensures owing_all { OwingAll types.now.words.now out.old o out.new result (ways ops.old args.old k) forms.now whats.now k.first (types_of types.now.words.now k.kids) }
{
    let ks = k.kids;
    if ks.count == 0 {
        return reached(k.first, 0, o);
    }
    let t = types.part_at(ks.owner, ks.first);
    let n = hop(ops, args, k.depth, k.way);
    let c = Cursor {
        first: k.first,
        second: 0,
        typ: t,
        depth: n,
    };
    let a = folds_node(types, forms, whats, c, ops, args, out, o);
    let rest = left(k, a.first, 0);
    folds_fields(types, forms, whats, rest, ops, args, out, a.out)
}
