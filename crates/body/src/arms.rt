// A match: which variant each target opens, and the state that the target leaves with.
ghost use Rattle.std.specs.Prelude.{◌≡◌, ◌<◌};
ghost use Rattle.model.specs.Walk.{downcasting};
ghost use Rattle.model.specs.Function.{nitems, nblocks, local_types};
ghost use Rattle.model.specs.Block.{spot_before};
ghost use Rattle.type_record.specs.Sizes.{IsEnum};
ghost use Rattle.blocks.specs.Points.{UsedAt};
ghost use Rattle.refusal.specs.Refusal.{found};
ghost use Rattle.state.specs.Given.{Stated, Becomes};
ghost use Rattle.body.specs.Arms.{opens, leaves_by, Leaves, Opening, Plans};
ghost use Rattle.body.specs.Uses.{Preceded};

use crate::tries::{try_arms, variant_of};
use blocks::function::Function;
use blocks::matching::matched;
use blocks::place::root_before;
use env::open::downcast;
use env::project::{On, subject_at};
use mir::items::ARM;
use refusal::Refusal;
use state::nodes::State;

// What a match is on: the place that the read at `read` uses, of the enum `typ`.
#[derive(Clone, Copy)]
pub struct Subject {
    pub read: usize,
    pub typ: usize,
}

// How many variants no arm took, and the last of them.
// Kept: no Option of the one that is left, since both numbers are counted before it is known whether it is one (`rest_of`).
#[derive(Clone, Copy)]
pub struct Rest {
    pub left: usize,
    pub other: u32,
}

// A match on an enum. Its otherwise target opens the one variant that is left, if it is one.
#[derive(Clone, Copy)]
pub struct Match {
    pub on: Subject,
    pub rest: Rest,
}

// How the targets of the block b open the state s, which its items leave: by a match on an enum, or not at all, as where there is no
// match or one on an array's element.
pub fn plan_of(fun: &Function, b: usize, s: &State) -> Result<Option<Match>, Refusal>
    requires b_bound { b < nblocks fun.now.record.words.now }
    requires stated { Stated fun.now.types.words.now (local_types fun.now.record.words.now) s.now }
    ensures { Plans fun.now.types.words.now fun.now.record.words.now b s.now result }
{
    let Some(read) = matched(&fun.record, b) else {
        return Ok(None);
    };
    let r = root_before(&fun.record, read);
    let ops = fun.record.ops_from(r, read);
    let args = fun.record.args_from(r, read);
    let locals = fun.record.local_types();
    match subject_at(&fun.types, locals, &s.forms, &s.whats, ops, args)? {
        On::Element => Ok(None),
        On::Enum(typ) => {
            let on = Subject { read, typ };
            let mut taken = [0u8; 16384];
            let rest = try_arms(fun, b, on, s, &mut taken)?;
            Ok(Some(Match { on, rest }))
        }
    }
}

// The variant that the target item i opens, by a match on the enum t.
#[tactic(auto, unfolding(crate::specs::Arms::opens, crate::specs::Arms::rest, model::specs::Block::is_arm, model::specs::Block::arm_value))]
fn opened_variant(fun: &Function, t: usize, rest: Rest, i: usize) -> Option<usize>
    requires is_enum { IsEnum fun.now.types.words.now t }
    requires preceded { Preceded fun.now.record.words.now i }
    ensures { found result ≡ opens fun.now.types.words.now fun.now.record.words.now t rest i }
{
    if fun.record.op_of(i - 1) == ARM {
        return variant_of(&fun.types, t, fun.record.arg_of(i - 1) as usize);
    }
    if rest.left == 1 {
        return Some(rest.other as usize);
    }
    None
}

// The variant v of the place read is opened: it was tried before (`try_arms`), and not refused.
fn open_variant(fun: &Function, read: usize, v: u32, s: &mut State)
    requires used_at { UsedAt fun.now.record.words.now read }
    requires opening { Opening fun.now.types.words.now fun.now.record.words.now read v s.old }
    ensures { Becomes fun.now.types.words.now fun.now.record.words.now (downcasting fun.now.types.words.now (spot_before fun.now.record.words.now read) v) s.old s.new }
{
    let r = root_before(&fun.record, read);
    let ops = fun.record.ops_from(r, read);
    let args = fun.record.args_from(r, read);
    downcast(&fun.types, fun.record.local_types(), s, ops, args, v).unwrap();
}

// The state that the target item i leaves with: a copy of s, with the target's variant open.
pub fn target_state(fun: &Function, p: Option<Match>, i: usize, s: &State) -> State
    requires i_bound { i < nitems fun.now.record.words.now }
    requires stated { Stated fun.now.types.words.now (local_types fun.now.record.words.now) s.now }
    requires leaves { Leaves fun.now.types.words.now fun.now.record.words.now p i s.now }
    ensures { Becomes fun.now.types.words.now fun.now.record.words.now (leaves_by fun.now.types.words.now fun.now.record.words.now p i) s.now result }
{
    let Some(m) = p else {
        return *s;
    };
    let Some(v) = opened_variant(fun, m.on.typ, m.rest, i) else {
        return *s;
    };
    let mut t = *s;
    open_variant(fun, m.on.read, v as u32, &mut t);
    t
}
