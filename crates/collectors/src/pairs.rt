// What leads from one tree to another, over preorder arrays.
ghost use Rattle.std.specs.Prelude.{◌+◌, ◌<◌};
ghost use Rattle.model.specs.Types.{ntypes};
ghost use Rattle.statements.specs.Kept.{Counted};
ghost use Rattle.collectors.specs.Trail.{trail, Long, Keeps};
ghost use Rattle.collectors.specs.Gets.{types_of, ways, Siblings, Stands, StandAll, Leading, LeadingAll};

use crate::got::{Children, Cursor, Got, left, reached};
use crate::path::{Way, hop};
use crate::unfolds::unfolds_node;
use refusal::Refusal;
use state::kids::kids_of;
use state::nodes::node_end;
use statements::{FOLD, Out, record};
use type_record::types::Types;

// What leads from the first tree at the cursor to the second.
#[cycle(collect_fields_collect_node)]
pub fn collect_node<'a>(
    types: &Types,
    f1: &'a [u16],
    w1: &'a [u16],
    f2: &'a [u16],
    w2: &'a [u16],
    c: Cursor,
    ops: &mut [u32],
    args: &mut [u32],
    out: &mut [u32],
    o: Out,
) -> Result<Got, Refusal>
    requires typ_bound { c.typ < ntypes types.now.words.now }
    requires stands { Stands types.now.words.now f1.now w1.now c.first c.typ c.depth }
    requires stands_2 { Stands types.now.words.now f2.now w2.now c.second c.typ c.depth }
    requires long { Long ops.old args.old }
    requires counted { Counted out.old o }
    ensures keeps { Keeps ops.old args.old ops.new args.new c.depth }
    ensures leading { Leading types.now.words.now out.old o out.new result (trail ops.old args.old c.depth) f1.now w1.now c.first f2.now w2.now c.second c.typ }
{
    let i = c.first;
    let j = c.second;
    let i1 = i + 1;
    let j1 = j + 1;
    if f1[i] == 0 {
        if f2[j] == 0 {
            return Ok(reached(i1, j1, o));
        }
        let a = unfolds_node(types, f2, w2, c, ops, args, out, o)?;
        return Ok(reached(i1, a.second, a.out));
    }
    if f2[j] == 0 {
        let r = record(out, o, FOLD, 0, ops, args, c.depth);
        let e = node_end(types, f1, w1, i, c.typ);
        return Ok(reached(e, j1, r));
    }
    let w = w1[i];
    if w != w2[j] {
        return Err(Refusal::OtherVariant);
    }
    let k = Children {
        first: i1,
        second: j1,
        kids: kids_of(types, c.typ, w),
        way: Way {
            full: false,
            kind: types.kind_at(c.typ),
            variant: usize::from(w),
            child: 0,
        },
        depth: c.depth,
    };
    collect_fields(types, f1, w1, f2, w2, k, ops, args, out, o)
}

// The same of the children that are left.
#[cycle(collect_fields_collect_node)]
fn collect_fields<'a>(
    types: &Types,
    f1: &'a [u16],
    w1: &'a [u16],
    f2: &'a [u16],
    w2: &'a [u16],
    k: Children,
    ops: &mut [u32],
    args: &mut [u32],
    out: &mut [u32],
    o: Out,
) -> Result<Got, Refusal>
    requires siblings { Siblings types.now.words.now k }
    requires stand_all { StandAll types.now.words.now f1.now w1.now k.first (types_of types.now.words.now k.kids) (k.depth + 2) }
    requires stand_all_2 { StandAll types.now.words.now f2.now w2.now k.second (types_of types.now.words.now k.kids) (k.depth + 2) }
    requires long { Long ops.old args.old }
    requires counted { Counted out.old o }
    ensures keeps { Keeps ops.old args.old ops.new args.new k.depth }
    ensures leading_all { LeadingAll types.now.words.now out.old o out.new result (ways ops.old args.old k) f1.now w1.now k.first f2.now w2.now k.second (types_of types.now.words.now k.kids) }
{
    let ks = k.kids;
    if ks.count == 0 {
        return Ok(reached(k.first, k.second, o));
    }
    let t = types.part_at(ks.owner, ks.first);
    let n = hop(ops, args, k.depth, k.way);
    let c = Cursor {
        first: k.first,
        second: k.second,
        typ: t,
        depth: n,
    };
    let a = collect_node(types, f1, w1, f2, w2, c, ops, args, out, o)?;
    let rest = left(k, a.first, a.second);
    collect_fields(types, f1, w1, f2, w2, rest, ops, args, out, a.out)
}
