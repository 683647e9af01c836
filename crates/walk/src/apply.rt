// Carrying out what a walk has found: nodes opened on the way, a node folded.
ghost use Rattle.std.specs.Prelude.{◌≡◌, true, ◌-◌, ◌<◌};
ghost use Rattle.model.specs.Types.{ntypes};
ghost use Rattle.model.specs.Place.{no_index};
ghost use Rattle.model.specs.Block.{elem_of};
ghost use Rattle.base.specs.Ranges.{BothHave};
ghost use Rattle.type_record.specs.Sizes.{Sized};
ghost use Rattle.walk.specs.Way.{route};
ghost use Rattle.walk.specs.Fresh.{distance, variant};
ghost use Rattle.walk.specs.Applied.{Marks, Stretch, Room, Pens, Opens, Carried, Folds, Folded};

use crate::along::Walk;
use crate::step::{Fresh, More, folded, step_folded};
use mir::items::{DEREF, DOWNCAST, FIELD};
use state::edit::{close_up, make_room};
use state::nodes::{State, node_end};
use type_record::record::kind_at;
use type_record::types::Types;

// How many nodes stand between a node that a step opens and the node that it leads to.
fn distance(op: u32, arg: u32) -> usize
    ensures { result ≡ distance (elem_of op arg) }
{
    match op {
        DEREF => 1,
        FIELD => 1 + arg as usize,
        _ => 0,
    }
}

// The variant at which a step opens a folded node.
fn variant(op: u32, arg: u32) -> u16
    requires { variant (elem_of op arg) < 65536 }
    ensures { result ≡ variant (elem_of op arg) }
{
    if op == DOWNCAST { arg as u16 } else { 0 }
}

// Writes the node that a step opens, at i; a node that is open stays.
fn write_open(
    types: &[u32],
    f: Fresh,
    op: u32,
    arg: u32,
    i: usize,
    forms: &mut [u16],
    whats: &mut [u16],
)
    requires sized { Sized types.now }
    requires typ_bound { f.typ < ntypes types.now }
    requires arg_bound { variant (elem_of op arg) < 65536 }
    requires both_have { BothHave i forms.old whats.old }
    ensures { Marks types.now f (elem_of op arg) i forms.old whats.old forms.new whats.new }
{
    if !f.opened {
        forms[i] = kind_at(types, f.typ).form();
        whats[i] = variant(op, arg);
    }
}

// Where the writing has come to.
#[derive(Clone, Copy)]
struct Pen {
    at: usize,
    fresh: Fresh,
}

// Writes the nodes that the elements from..end open, the first at i, of type typ.
fn write_path(
    types: &Types,
    ops: &[u32],
    args: &[u32],
    from: usize,
    end: usize,
    i: usize,
    typ: usize,
    forms: &mut [u16],
    whats: &mut [u16],
) -> Pen
    requires typ_bound { typ < ntypes types.now.words.now }
    requires stretch { Stretch ops.now args.now from end }
    requires from_value { no_index (route ops.now args.now from (end - from)) ≡ true }
    requires room { Room types.now.words.now (route ops.now args.now from (end - from)) typ i forms.old whats.old }
    ensures { Pens types.now.words.now (route ops.now args.now from (end - from)) typ i forms.old whats.old forms.new whats.new result }
{
    let mut fresh = folded(typ, 0);
    let mut p = i;
    for at in from..end {
        let op = ops[at];
        let arg = args[at];
        write_open(types.words, fresh, op, arg, p, forms, whats);
        p += distance(op, arg);
        fresh = step_folded(types, fresh, op, arg).unwrap();
    }
    Pen { at: p, fresh }
}

// A walk's nodes are opened, and then one more, if there is one step more. w has the walk with that step.
pub fn open_nodes(
    types: &Types,
    s: &mut State,
    w: Walk,
    ops: &[u32],
    args: &[u32],
    more: Option<More>,
)
    requires opens { Opens types.now.words.now ops.now args.now s.old w more }
    ensures { Carried types.now.words.now ops.now args.now s.old w more s.new }
{
    let i = w.node;
    let n = s.nodes;
    let gap = 1 + w.fresh.added;
    make_room(&mut s.forms, n, i, gap);
    make_room(&mut s.whats, n, i, gap);
    let p = write_path(
        types,
        ops,
        args,
        w.passed,
        w.walked,
        i,
        w.typ,
        &mut s.forms,
        &mut s.whats,
    );
    if let Some(m) = more {
        write_open(
            types.words,
            p.fresh,
            m.op,
            m.arg,
            p.at,
            &mut s.forms,
            &mut s.whats,
        );
    }
    s.nodes += w.fresh.added;
}

// The node at i, of type t, is folded.
pub fn fold_at(types: &Types, s: &mut State, i: usize, t: usize)
    requires t_bound { t < ntypes types.now.words.now }
    requires folds { Folds types.now.words.now s.old i t }
    ensures { Folded types.now.words.now s.old i t s.new }
{
    let n = s.nodes;
    let e = node_end(types, &s.forms, &s.whats, i, t);
    close_up(&mut s.forms, n, i, e);
    close_up(&mut s.whats, n, i, e);
    s.nodes -= e - i - 1;
}
