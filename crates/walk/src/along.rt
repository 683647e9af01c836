// The walk: through open nodes up to the first folded one that must open, then by types alone. So WrongStep, OtherVariant
// and BareVariant come before StateFull, and StateFull is known before anything is written.
ghost use Rattle.std.specs.Prelude.{◌≡◌, ◌<◌};
ghost use Rattle.model.specs.Types.{ntypes};
ghost use Rattle.base.specs.Ranges.{Range};
ghost use Rattle.records.specs.Here.{Here};
ghost use Rattle.walk.specs.Site.{Short, extent, onward, PassesAt, WalksAt};

use crate::step::{Fresh, Node, folded, step_folded, step_open};
use mir::items::INDEX;
use refusal::Refusal;
use type_record::kinds::Kind;
use type_record::types::Types;

// What a walk has found: the elements walked, counted with the root, and those passed before the step that first changed the
// tree (as many if none did); the node where the open nodes end, and its type; what the walk has opened from there.
#[derive(Clone, Copy)]
pub struct Walk {
    pub walked: usize,
    pub passed: usize,
    pub node: usize,
    pub typ: usize,
    pub fresh: Fresh,
}

// How far the open nodes lead: the elements passed, counted with the root, and the node and its type there.
#[derive(Clone, Copy)]
struct Through {
    at: usize,
    node: usize,
    typ: usize,
}

// How far types lead from there: the elements walked, counted with the root, and the node there.
#[derive(Clone, Copy)]
struct Onward {
    walked: usize,
    fresh: Fresh,
}

// Through open nodes, from the tree at node: up to the end of the place, an index, or a folded node.
fn pass_open<'a>(
    types: &Types,
    forms: &'a [u16],
    whats: &'a [u16],
    ops: &[u32],
    args: &[u32],
    node: usize,
    typ: usize,
) -> Result<Through, Refusal>
    requires typ_bound { typ < ntypes types.now.words.now }
    requires here { Here types.now.words.now forms.now whats.now node typ }
    requires short { Short ops.now args.now }
    ensures { PassesAt types.now.words.now forms.now whats.now ops.now args.now node typ result }
{
    let mut here = Node { node, typ };
    let n = ops.len();
    for at in 1..n {
        let op = ops[at];
        if op == INDEX || forms[here.node] == 0 {
            return Ok(Through {
                at,
                node: here.node,
                typ: here.typ,
            });
        }
        here = step_open(types, forms, whats, here.node, here.typ, op, args[at])?;
    }
    Ok(Through {
        at: n,
        node: here.node,
        typ: here.typ,
    })
}

// By types alone, from a folded node of type typ, along the items from `from` on: up to the end of the place or an index. No
// step is made where open nodes led as far.
fn pass_folded(
    types: &Types,
    ops: &[u32],
    args: &[u32],
    from: usize,
    typ: usize,
) -> Result<Onward, Refusal>
    requires typ_bound { typ < ntypes types.now.words.now }
    requires short { Short ops.now args.now }
    requires range { Range 1 from (extent ops.now args.now) }
    ensures { result ≡ onward types.now.words.now ops.now args.now from typ }
{
    let mut fresh = folded(typ, 0);
    let n = ops.len();
    for at in from..n {
        let op = ops[at];
        if op == INDEX {
            return Ok(Onward { walked: at, fresh });
        }
        fresh = step_folded(types, fresh, op, args[at])?;
    }
    Ok(Onward { walked: n, fresh })
}

// From the node of a local, of type typ, along the place. Where it stops at an index the type must be an array.
pub fn walk_along<'a>(
    types: &Types,
    forms: &'a [u16],
    whats: &'a [u16],
    ops: &[u32],
    args: &[u32],
    node: usize,
    typ: usize,
) -> Result<Walk, Refusal>
    requires typ_bound { typ < ntypes types.now.words.now }
    requires here { Here types.now.words.now forms.now whats.now node typ }
    requires short { Short ops.now args.now }
    ensures { WalksAt types.now.words.now forms.now whats.now ops.now args.now node typ result }
{
    let th = pass_open(types, forms, whats, ops, args, node, typ)?;
    let on = pass_folded(types, ops, args, th.at, th.typ)?;
    let fresh = on.fresh;
    if on.walked < ops.len() && types.kind_at(fresh.typ) != Kind::Array {
        return Err(Refusal::WrongStep);
    }
    Ok(Walk {
        walked: on.walked,
        passed: th.at,
        node: th.node,
        typ: th.typ,
        fresh,
    })
}
