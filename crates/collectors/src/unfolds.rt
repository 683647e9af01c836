// What opens a folded tree until it is as another, over preorder arrays. The other is the second tree of a cursor.
ghost use Rattle.std.specs.Prelude.{◌+◌, ◌<◌, ◌≤◌, length};
ghost use Rattle.model.specs.Types.{ntypes};
ghost use Rattle.statements.specs.Kept.{Counted};
ghost use Rattle.collectors.specs.Trail.{trail, Long, Keeps};
ghost use Rattle.collectors.specs.Gets.{types_of, ways, Zeros, Siblings, Stands, StandAll, Opening, OpeningAll};

use crate::got::{Children, Cursor, Got, left, reached};
use crate::path::{Way, hop};
use refusal::Refusal;
use state::kids::kids_of;
use statements::{Out, UNFOLD, record};
use type_record::kinds::Kind;
use type_record::types::Types;

// Are all of the n trees from i on folded? They are then n nodes.
fn all_folded(forms: &[u16], i: usize, n: usize) -> bool
    requires { i + n ≤ length forms.now }
    ensures { Zeros forms.now i n result }
{
    forms[i..i + n].iter().all(|form| *form == 0)
}

// What opens a folded tree until it is as the one at the cursor.
#[cycle(unfolds_fields_unfolds_node)]
pub fn unfolds_node<'a>(
    types: &Types,
    forms: &'a [u16],
    whats: &'a [u16],
    c: Cursor,
    ops: &mut [u32],
    args: &mut [u32],
    out: &mut [u32],
    o: Out,
) -> Result<Got, Refusal>
    requires typ_bound { c.typ < ntypes types.now.words.now }
    requires stands { Stands types.now.words.now forms.now whats.now c.second c.typ c.depth }
    requires long { Long ops.old args.old }
    requires counted { Counted out.old o }
    ensures keeps { Keeps ops.old args.old ops.new args.new c.depth }
    ensures opening { Opening types.now.words.now out.old o out.new result (trail ops.old args.old c.depth) forms.now whats.now c.second c.typ }
{
    let i = c.second;
    let next = i + 1;
    if forms[i] == 0 {
        return Ok(reached(0, next, o));
    }
    let w = whats[i];
    let ks = kids_of(types, c.typ, w);
    let kind = types.kind_at(c.typ);
    if all_folded(forms, next, ks.count) {
        if kind == Kind::Enum {
            return Err(Refusal::BareVariant);
        }
        let r = record(out, o, UNFOLD, 0, ops, args, c.depth);
        return Ok(reached(0, next + ks.count, r));
    }
    let k = Children {
        first: 0,
        second: next,
        kids: ks,
        way: Way {
            full: true,
            kind,
            variant: usize::from(w),
            child: 0,
        },
        depth: c.depth,
    };
    unfolds_fields(types, forms, whats, k, ops, args, out, o)
}

// The same of the children that are left.
#[cycle(unfolds_fields_unfolds_node)]
fn unfolds_fields<'a>(
    types: &Types,
    forms: &'a [u16],
    whats: &'a [u16],
    k: Children,
    ops: &mut [u32],
    args: &mut [u32],
    out: &mut [u32],
    o: Out,
) -> Result<Got, Refusal>
    requires siblings { Siblings types.now.words.now k }
    requires stand_all { StandAll types.now.words.now forms.now whats.now k.second (types_of types.now.words.now k.kids) (k.depth + 2) }
    requires long { Long ops.old args.old }
    requires counted { Counted out.old o }
    ensures keeps { Keeps ops.old args.old ops.new args.new k.depth }
    ensures opening_all { OpeningAll types.now.words.now out.old o out.new result (ways ops.old args.old k) forms.now whats.now k.second (types_of types.now.words.now k.kids) }
{
    let ks = k.kids;
    if ks.count == 0 {
        return Ok(reached(0, k.second, o));
    }
    let t = types.part_at(ks.owner, ks.first);
    let n = hop(ops, args, k.depth, k.way);
    let c = Cursor {
        first: 0,
        second: k.second,
        typ: t,
        depth: n,
    };
    let a = unfolds_node(types, forms, whats, c, ops, args, out, o)?;
    let rest = left(k, 0, a.second);
    unfolds_fields(types, forms, whats, rest, ops, args, out, a.out)
}
