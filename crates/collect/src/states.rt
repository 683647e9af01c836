// `collect_fold_unfolds`, `collect_unfolds` and `collect_folds_at_ret`, over states: what they collect is recorded at the point of o.
ghost use Rattle.std.specs.Prelude.{◌≡◌, true, ◌<◌, length};
ghost use Rattle.moments.specs.Lent.{after};
ghost use Rattle.model.specs.State.{locals_ok};
ghost use Rattle.statements.specs.Kept.{Counted};
ghost use Rattle.collectors.specs.Trail.{Long, root};
ghost use Rattle.collectors.specs.Gets.{StandAll, OpeningAll, LeadingAll};
ghost use Rattle.collect.specs.Answers.{Held, HeldIn, Moves, Unfolds, Owes, Owed};

use collectors::folds::folds_node;
use collectors::got::{Cursor, Got, reached};
use collectors::pairs::collect_node;
use collectors::path::set_item;
use collectors::unfolds::unfolds_node;
use mir::items::ROOT;
use refusal::Refusal;
use state::nodes::{State, node_end};
use statements::Out;
use type_record::types::Types;

// What opens each local, one after the other, until it is as its tree.
fn unfolds_locals<'a>(
    types: &Types,
    locals: &[u32],
    forms: &'a [u16],
    whats: &'a [u16],
    ops: &mut [u32],
    args: &mut [u32],
    out: &mut [u32],
    o: Out,
) -> Result<Got, Refusal>
    requires locals_value { locals_ok types.now.words.now locals.now ≡ true }
    requires stand_all { StandAll types.now.words.now forms.now whats.now 0 locals.now 1 }
    requires long { Long ops.old args.old }
    requires counted { Counted out.old o }
    ensures { OpeningAll types.now.words.now out.old o out.new result (root 0) forms.now whats.now 0 locals.now }
{
    let mut g = reached(0, 0, o);
    let count = locals.len();
    for l in 0..count {
        set_item(ops, args, 0, ROOT, l);
        let c = Cursor {
            first: 0,
            second: g.second,
            typ: locals[l] as usize,
            depth: 1,
        };
        g = unfolds_node(types, forms, whats, c, ops, args, out, g.out)?;
    }
    Ok(g)
}

// What leads from each local's first tree to its second.
fn collect_locals<'a>(
    types: &Types,
    locals: &[u32],
    f1: &'a [u16],
    w1: &'a [u16],
    f2: &'a [u16],
    w2: &'a [u16],
    ops: &mut [u32],
    args: &mut [u32],
    out: &mut [u32],
    o: Out,
) -> Result<Got, Refusal>
    requires locals_value { locals_ok types.now.words.now locals.now ≡ true }
    requires stand_all { StandAll types.now.words.now f1.now w1.now 0 locals.now 1 }
    requires stand_all_2 { StandAll types.now.words.now f2.now w2.now 0 locals.now 1 }
    requires long { Long ops.old args.old }
    requires counted { Counted out.old o }
    ensures { LeadingAll types.now.words.now out.old o out.new result (root 0) f1.now w1.now 0 f2.now w2.now 0 locals.now }
{
    let mut g = reached(0, 0, o);
    let n = locals.len();
    for l in 0..n {
        set_item(ops, args, 0, ROOT, l);
        let c = Cursor {
            first: g.first,
            second: g.second,
            typ: locals[l] as usize,
            depth: 1,
        };
        g = collect_node(types, f1, w1, f2, w2, c, ops, args, out, g.out)?;
    }
    Ok(g)
}

// What a return owes of the locals 1 to a.
fn folds_locals<'a>(
    types: &Types,
    locals: &[u32],
    a: usize,
    forms: &'a [u16],
    whats: &'a [u16],
    ops: &mut [u32],
    args: &mut [u32],
    out: &mut [u32],
    o: Out,
) -> Got
    requires locals_value { locals_ok types.now.words.now locals.now ≡ true }
    requires a_in_bounds { a < length locals.now }
    requires stand_all { StandAll types.now.words.now forms.now whats.now 0 locals.now 1 }
    requires long { Long ops.old args.old }
    requires counted { Counted out.old o }
    ensures { Owed types.now.words.now out.old o out.new result a forms.now whats.now locals.now }
{
    let i = node_end(types, forms, whats, 0, locals[0] as usize);
    let mut g = reached(i, 0, o);
    for l in 1..a + 1 {
        set_item(ops, args, 0, ROOT, l);
        let c = Cursor {
            first: g.first,
            second: 0,
            typ: locals[l] as usize,
            depth: 1,
        };
        g = folds_node(types, forms, whats, c, ops, args, out, g.out);
    }
    g
}

// From one state to another.
pub fn collect_fold_unfolds(
    types: &Types,
    locals: &[u32],
    s: State,
    e: State,
    out: &mut [u32],
    o: Out,
) -> Result<Out, Refusal>
    requires locals_value { locals_ok types.now.words.now locals.now ≡ true }
    requires held { Held types.now.words.now locals.now s }
    requires held_2 { Held types.now.words.now locals.now e }
    requires counted { Counted out.old o }
    ensures { Moves types.now.words.now locals.now s e out.old o out.new result }
{
    let mut ops = [0u32; 130];
    let mut args = [0u32; 130];
    let g = collect_locals(
        types, locals, &s.forms, &s.whats, &e.forms, &e.whats, &mut ops, &mut args, out, o,
    )?;
    Ok(g.out)
}

// From all folded to a state.
pub fn collect_unfolds(
    types: &Types,
    locals: &[u32],
    s: State,
    out: &mut [u32],
    o: Out,
) -> Result<Out, Refusal>
    requires locals_value { locals_ok types.now.words.now locals.now ≡ true }
    requires held { Held types.now.words.now locals.now s }
    requires counted { Counted out.old o }
    ensures { Unfolds types.now.words.now locals.now s out.old o out.new result }
{
    let mut ops = [0u32; 130];
    let mut args = [0u32; 130];
    let g = unfolds_locals(
        types, locals, &s.forms, &s.whats, &mut ops, &mut args, out, o,
    )?;
    Ok(g.out)
}

// The folds that a return owes: of the locals 1 to a. The state is lent, so that a block that returns need not copy it.
pub fn collect_folds_at_ret<'a>(
    types: &Types,
    locals: &[u32],
    a: usize,
    forms: &'a [u16],
    whats: &'a [u16],
    out: &mut [u32],
    o: Out,
) -> Out
    requires locals_value { locals_ok types.now.words.now locals.now ≡ true }
    requires a_in_bounds { a < length locals.now }
    requires held_in { HeldIn types.now.words.now locals.now forms.now whats.now }
    requires counted { Counted out.old o }
    ensures { Owes types.now.words.now locals.now a forms.now whats.now out.old o out.new result }
{
    let mut ops = [0u32; 130];
    let mut args = [0u32; 130];
    let g = folds_locals(types, locals, a, forms, whats, &mut ops, &mut args, out, o);
    g.out
}
