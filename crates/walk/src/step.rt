// One step of the walk: from an open node, and from a folded one, by types alone.
ghost use Rattle.std.specs.Prelude.{◌≡◌, true, ◌<◌, length, get_or, Ok};
ghost use Rattle.model.specs.Types.{ntypes, kids};
ghost use Rattle.model.specs.Place.{index};
ghost use Rattle.model.specs.Block.{elem_of};
ghost use Rattle.records.specs.Here.{Here};
ghost use Rattle.type_record.specs.Sizes.{VariantOf};
ghost use Rattle.state.specs.Found.{OpenAt};
ghost use Rattle.walk.specs.Way.{StepsAt};
ghost use Rattle.walk.specs.Fresh.{folded, Bud, grows_open, grows_folded, grows};

use mir::items::{DEREF, DOWNCAST, FIELD};
use refusal::Refusal;
use state::nodes::fields_end;
use type_record::kinds::Kind;
use type_record::types::Types;

// What an unfold does at the node reached: the code of a step that no place has.
pub const OPEN: u32 = 16;

// One step more at the node reached, as an item.
#[derive(Clone, Copy)]
pub struct More {
    pub op: u32,
    pub arg: u32,
}

// A node of a state, and its type.
#[derive(Clone, Copy)]
pub struct Node {
    pub node: usize,
    pub typ: usize,
}

// From an open node.
pub fn step_open<'a>(
    types: &Types,
    forms: &'a [u16],
    whats: &'a [u16],
    node: usize,
    typ: usize,
    op: u32,
    arg: u32,
) -> Result<Node, Refusal>
    requires typ_bound { typ < ntypes types.now.words.now }
    requires here { Here types.now.words.now forms.now whats.now node typ }
    requires open_at { OpenAt forms.now node }
    ensures { StepsAt types.now.words.now forms.now whats.now node typ (elem_of op arg) result }
{
    let k = types.kind_at(typ);
    let what = usize::from(whats[node]);
    match op {
        DEREF => {
            if !k.pointer() {
                return Err(Refusal::WrongStep);
            }
            Ok(Node {
                node: node + 1,
                typ: types.kid_type(typ, 0, 0),
            })
        }
        FIELD => {
            let f = arg as usize;
            if k.pointer() || types.kid_count(typ, what) <= f {
                return Err(Refusal::WrongStep);
            }
            let u = types.owner_of(typ, what);
            let j = types.first_of(typ);
            Ok(Node {
                node: fields_end(types, forms, whats, node + 1, u, j, f),
                typ: types.kid_type(typ, what, f),
            })
        }
        DOWNCAST => {
            let v = arg as usize;
            if !types.casts(typ, v) {
                return Err(Refusal::WrongStep);
            }
            if v != what {
                return Err(Refusal::OtherVariant);
            }
            Ok(Node { node, typ })
        }
        _ => Ok(Node { node, typ }),
    }
}

// A node that the walk has come to by types alone: its type, whether the walk has opened it, at which variant; the nodes that
// the walk has added so far.
#[derive(Clone, Copy)]
pub struct Fresh {
    pub typ: usize,
    pub opened: bool,
    pub what: usize,
    pub added: usize,
}

// A folded node of type typ, behind which `added` nodes were added.
pub fn folded(typ: usize, added: usize) -> Fresh
    ensures { result ≡ folded typ added }
{
    Fresh {
        typ,
        opened: false,
        what: 0,
        added,
    }
}

// From a node that the walk has just opened.
fn step_cast(types: &Types, at: Fresh, op: u32, arg: u32) -> Result<Fresh, Refusal>
    requires bud { Bud types.now.words.now at }
    requires opened_value { at.opened ≡ true }
    ensures { result ≡ grows_open types.now.words.now at.typ at.what at.added (elem_of op arg) }
{
    let typ = at.typ;
    let v = at.what;
    match op {
        DEREF => Err(Refusal::WrongStep),
        FIELD => {
            let f = arg as usize;
            if types.kid_count(typ, v) <= f {
                return Err(Refusal::WrongStep);
            }
            Ok(folded(types.kid_type(typ, v, f), at.added))
        }
        DOWNCAST => {
            let w = arg as usize;
            if !types.casts(typ, w) {
                return Err(Refusal::WrongStep);
            }
            if w != v {
                return Err(Refusal::OtherVariant);
            }
            Ok(at)
        }
        _ => Ok(at),
    }
}

// An unfold at a folded node.
fn step_unfold(types: &Types, typ: usize, added: usize) -> Result<Fresh, Refusal>
    requires typ_bound { typ < ntypes types.now.words.now }
    requires added_bound { added < 4294967296 }
    ensures { result ≡ grows_folded types.now.words.now typ added index }
{
    let k = types.kind_at(typ);
    if k.shut() {
        return Err(Refusal::WrongStep);
    }
    if k == Kind::Enum {
        return Err(Refusal::BareVariant);
    }
    Ok(Fresh {
        typ,
        opened: true,
        what: 0,
        added: added + types.kid_count(typ, 0),
    })
}

// From a folded node.
pub fn step_folded(types: &Types, at: Fresh, op: u32, arg: u32) -> Result<Fresh, Refusal>
    requires bud { Bud types.now.words.now at }
    requires added_bound { at.added < 4294967296 }
    ensures { result ≡ grows types.now.words.now at (elem_of op arg) }
{
    if at.opened {
        return step_cast(types, at, op, arg);
    }
    let typ = at.typ;
    let k = types.kind_at(typ);
    match op {
        DEREF => {
            if !k.pointer() {
                return Err(Refusal::WrongStep);
            }
            Ok(folded(types.kid_type(typ, 0, 0), at.added + 1))
        }
        FIELD => {
            let f = arg as usize;
            if !k.fielded() {
                return Err(Refusal::WrongStep);
            }
            let n = types.kid_count(typ, 0);
            if n <= f {
                return Err(Refusal::WrongStep);
            }
            Ok(folded(types.kid_type(typ, 0, f), at.added + n))
        }
        DOWNCAST => {
            let v = arg as usize;
            if !types.casts(typ, v) {
                return Err(Refusal::WrongStep);
            }
            let n = types.kid_count(typ, v);
            Ok(Fresh {
                typ,
                opened: true,
                what: v,
                added: at.added + n,
            })
        }
        _ => step_unfold(types, typ, at.added),
    }
}
