// `PlaceNode::join` and `Env::join`, over preorder arrays: two trees are read, their join is written to a third place.
ghost use Rattle.std.specs.Prelude.{◌≡◌, true, false, ◌<◌};
ghost use Rattle.model.specs.Types.{ntypes};
ghost use Rattle.model.specs.State.{locals_ok};
ghost use Rattle.records.specs.Here.{Here, Heres};
ghost use Rattle.state.specs.Kids.{KidsIn, kid_types};
ghost use Rattle.join.specs.Ends.{Room, arrays, marks, Met, MetAll};
ghost use Rattle.join.specs.Answers.{Given, JoinedAs};

use crate::ends::{Ends, Marks, stays};
use crate::settle::settle_node;
use state::edit::clear;
use state::kids::{Kids, first_kid, kids_of, rest_of_kids};
use state::nodes::{State, node_end};
use type_record::types::Types;

// Joins the trees of type t that stand at from.first of the first arrays and at from.second of the second, unless there is no room.
#[tactic(auto, using(crate::proofs::Joins::join_over, state::proofs::Fields::ready_sized))]
#[cycle(join_fields_join_node)]
fn join_node<'a>(
    types: &Types,
    f1: &'a [u16],
    w1: &'a [u16],
    f2: &'a [u16],
    w2: &'a [u16],
    from: Marks,
    t: usize,
    m: bool,
    of: &mut [u16],
    ow: &mut [u16],
) -> Option<Ends>
    requires t_bound { t < ntypes types.now.words.now }
    requires here { Here types.now.words.now f1.now w1.now from.first t }
    requires here_2 { Here types.now.words.now f2.now w2.now from.second t }
    requires room { Room of.old ow.old from.out }
    ensures { Met types.now.words.now (arrays of.old ow.old) (arrays of.new ow.new) (arrays f1.now w1.now) (arrays f2.now w2.now) from t m result }
{
    let i = from.first;
    let j = from.second;
    let k = from.out;
    let kind = types.kind_at(t);
    let f = f1[i];
    let g = f2[j];
    if f == 0 {
        let a = settle_node(types, f2, w2, j, t, m, of, ow, k)?;
        let to = Marks {
            first: i + 1,
            second: a.to.first,
            out: a.to.out,
        };
        return Some(Ends {
            to,
            changed: stays(g, m, kind),
        });
    }
    if g == 0 {
        let a = settle_node(types, f1, w1, i, t, m, of, ow, k)?;
        let to = Marks {
            second: j + 1,
            ..a.to
        };
        return Some(Ends { to, ..a });
    }
    if k >= 512 {
        return None;
    }
    let w = w1[i];
    if w == w2[j] {
        of[k] = f;
        ow[k] = w;
        let ks = kids_of(types, t, w);
        let inside = Marks {
            first: i + 1,
            second: j + 1,
            out: k + 1,
        };
        return join_fields(types, f1, w1, f2, w2, inside, ks, kind.below(m), of, ow);
    }
    of[k] = 0;
    ow[k] = 0;
    let to = Marks {
        first: node_end(types, f1, w1, i, t),
        second: node_end(types, f2, w2, j, t),
        out: k + 1,
    };
    Some(Ends { to, changed: true })
}

#[cycle(join_fields_join_node)]
fn join_fields<'a>(
    types: &Types,
    f1: &'a [u16],
    w1: &'a [u16],
    f2: &'a [u16],
    w2: &'a [u16],
    from: Marks,
    ks: Kids,
    m: bool,
    of: &mut [u16],
    ow: &mut [u16],
) -> Option<Ends>
    requires kids_in { KidsIn types.now.words.now ks }
    requires heres { Heres types.now.words.now f1.now w1.now from.first (kid_types types.now.words.now ks) }
    requires heres_2 { Heres types.now.words.now f2.now w2.now from.second (kid_types types.now.words.now ks) }
    requires room { Room of.old ow.old from.out }
    ensures { MetAll types.now.words.now (arrays of.old ow.old) (arrays of.new ow.new) (arrays f1.now w1.now) (arrays f2.now w2.now) from (kid_types types.now.words.now ks) m result }
{
    if ks.count == 0 {
        return Some(Ends {
            to: from,
            changed: false,
        });
    }
    let t = first_kid(types, ks);
    let a = join_node(types, f1, w1, f2, w2, from, t, m, of, ow)?;
    let rest = rest_of_kids(ks);
    let b = join_fields(types, f1, w1, f2, w2, a.to, rest, m, of, ow)?;
    Some(Ends {
        to: b.to,
        changed: a.changed || b.changed,
    })
}

// What a join of two states gives: the nodes of the result and whether the first state changed.
#[derive(Clone, Copy)]
pub struct Joined {
    pub nodes: usize,
    pub changed: bool,
}

fn join_locals<'a>(
    types: &Types,
    locals: &[u32],
    f1: &'a [u16],
    w1: &'a [u16],
    f2: &'a [u16],
    w2: &'a [u16],
    of: &mut [u16],
    ow: &mut [u16],
) -> Option<Ends>
    requires locals_value { locals_ok types.now.words.now locals.now ≡ true }
    requires heres { Heres types.now.words.now f1.now w1.now 0 locals.now }
    requires heres_2 { Heres types.now.words.now f2.now w2.now 0 locals.now }
    requires room { Room of.old ow.old 0 }
    ensures { MetAll types.now.words.now (arrays of.old ow.old) (arrays of.new ow.new) (arrays f1.now w1.now) (arrays f2.now w2.now) (marks 0 0 0) locals.now false result }
{
    let mut to = Marks {
        first: 0,
        second: 0,
        out: 0,
    };
    let mut changed = false;
    for t in locals {
        let a = join_node(types, f1, w1, f2, w2, to, *t as usize, false, of, ow)?;
        to = a.to;
        changed = changed || a.changed;
    }
    Some(Ends { to, changed })
}

// The join of two states, written to two arrays of 512 entries, zeros behind it; None: it has no room.
pub fn join_into(
    types: &Types,
    locals: &[u32],
    s: State,
    e: State,
    of: &mut [u16],
    ow: &mut [u16],
) -> Option<Joined>
    requires locals_value { locals_ok types.now.words.now locals.now ≡ true }
    requires given { Given types.now.words.now locals.now s }
    requires given_2 { Given types.now.words.now locals.now e }
    requires room { Room of.old ow.old 0 }
    ensures { JoinedAs types.now.words.now locals.now s e result of.new ow.new }
{
    let r = join_locals(
        types, locals, &s.forms, &s.whats, &e.forms, &e.whats, of, ow,
    )?;
    let nodes = r.to.out;
    clear(of, nodes, 512);
    clear(ow, nodes, 512);
    Some(Joined {
        nodes,
        changed: r.changed,
    })
}
