// One step more where a walk has ended: `Env::downcast`, and an unfold carried out, in a state that passes.
ghost use Rattle.std.specs.Prelude.{length};
ghost use Rattle.model.specs.Place.{Unfold, used_ok, unfold_ok};
ghost use Rattle.env.specs.Given.{Asked};
ghost use Rattle.env.specs.Answers.{moved};
ghost use Rattle.env.specs.There.{Staying, CarriesThere, CastsThere, CastableThere, StepsThere, LastsThere, Arrived, LastsAt};

use crate::project::{MOST_NODES, ensure_unfolded};
use mir::items::DOWNCAST;
use refusal::Refusal;
use state::nodes::State;
use type_record::types::Types;
use walk::along::Walk;
use walk::apply::open_nodes;
use walk::step::{More, OPEN, step_folded, step_open};

// One step more where the walk has ended: an open node stays as it is, a folded one is opened. The walk with that step, if it opens nodes.
fn last_at(types: &Types, s: &State, w: Walk, more: More) -> Result<Option<Walk>, Refusal>
    requires arrived { Arrived types.now.words.now s.now w }
    requires staying { Staying more }
    ensures { LastsAt types.now.words.now s.now w more result }
{
    if s.forms[w.node] != 0 {
        step_open(types, &s.forms, &s.whats, w.node, w.typ, more.op, more.arg)?;
        return Ok(None);
    }
    let fresh = step_folded(types, w.fresh, more.op, more.arg)?;
    if MOST_NODES < s.nodes + fresh.added {
        return Err(Refusal::StateFull);
    }
    Ok(Some(Walk { fresh, ..w }))
}

// Walk, then one step more at the node reached: what that does.
fn last_step(
    types: &Types,
    locals: &[u32],
    s: &State,
    ops: &[u32],
    args: &[u32],
    more: More,
) -> Result<Option<Walk>, Refusal>
    requires asked { Asked types.now.words.now types.now.offs.now locals.now s.now ops.now args.now (unfold_ok (length locals.now)) }
    requires staying { Staying more }
    ensures { LastsThere types.now.words.now locals.now s.now ops.now args.now more result }
{
    let w = ensure_unfolded(types, locals, &s.forms, &s.whats, ops, args)?;
    last_at(types, s, w, more)
}

// Walk, then one step more, carried out.
fn open_last(
    types: &Types,
    locals: &[u32],
    s: &mut State,
    ops: &[u32],
    args: &[u32],
    more: More,
) -> Result<(), Refusal>
    requires asked { Asked types.now.words.now types.now.offs.now locals.now s.old ops.now args.now (unfold_ok (length locals.now)) }
    requires staying { Staying more }
    ensures { StepsThere types.now.words.now locals.now s.old ops.now args.now more (moved result s.new) }
{
    let opens = last_step(types, locals, s, ops, args, more)?;
    if let Some(w) = opens {
        open_nodes(types, s, w, ops, args, Some(more));
    }
    Ok(())
}

// Would a match arm's own unfolding be refused?
pub fn can_downcast(
    types: &Types,
    locals: &[u32],
    s: &State,
    ops: &[u32],
    args: &[u32],
    v: u32,
) -> Result<(), Refusal>
    requires { Asked types.now.words.now types.now.offs.now locals.now s.now ops.now args.now (used_ok (length locals.now)) }
    ensures { CastableThere types.now.words.now locals.now s.now ops.now args.now v result }
{
    let more = More {
        op: DOWNCAST,
        arg: v,
    };
    match last_step(types, locals, s, ops, args, more) {
        Ok(_) => Ok(()),
        Err(r) => Err(r),
    }
}

// A match arm's own unfolding: walk the place read, then downcast to the variant.
pub fn downcast(
    types: &Types,
    locals: &[u32],
    s: &mut State,
    ops: &[u32],
    args: &[u32],
    v: u32,
) -> Result<(), Refusal>
    requires { Asked types.now.words.now types.now.offs.now locals.now s.old ops.now args.now (used_ok (length locals.now)) }
    ensures { CastsThere types.now.words.now locals.now s.old ops.now args.now v (moved result s.new) }
{
    let more = More {
        op: DOWNCAST,
        arg: v,
    };
    open_last(types, locals, s, ops, args, more)
}

// An unfold carried out.
pub fn unfold(
    types: &Types,
    locals: &[u32],
    s: &mut State,
    ops: &[u32],
    args: &[u32],
) -> Result<(), Refusal>
    requires { Asked types.now.words.now types.now.offs.now locals.now s.old ops.now args.now (unfold_ok (length locals.now)) }
    ensures { CarriesThere types.now.words.now locals.now s.old ops.now args.now Unfold (moved result s.new) }
{
    let more = More { op: OPEN, arg: 0 };
    open_last(types, locals, s, ops, args, more)
}
