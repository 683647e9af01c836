// The walk along a place, and what is done with it. The calls for users stand here.
#![tactic(auto)]

ghost use Rattle.std.specs.Prelude.{◌≡◌, ◌≤◌, length};
ghost use Rattle.model.specs.Place.{Fold, Unfold, fold_ok};
ghost use Rattle.model.specs.Calls.{spot_of, call_projection, call_downcast, call_carry};
ghost use Rattle.model.specs.Promised.{use_numbers, unfold_numbers};
ghost use Rattle.mir.specs.Parts.{Tells, Spotted};
ghost use Rattle.refusal.specs.Refusal.{code};
ghost use Rattle.state.specs.Value.{value};
ghost use Rattle.env.specs.Answers.{Records, Gives, Uses, Refuses};
ghost use Rattle.env.specs.Tested.{limits, passes, Tested};

pub mod open;
pub mod project;

use blocks::place::{is_place, spot_ok, usable, used_ok};
use input::{check_given, check_locals};
use project::{Moved, Usage};
use refusal::Refusal;
use state::nodes::State;
use type_record::types::Types;

// What a call does with its place, which says the limits of the place.
#[derive(Clone, Copy)]
enum Aim {
    Uses,
    Folds,
    Unfolds,
}

// The place of a fold: as one that is used, with one step more.
fn fold_ok(ops: &[u32], args: &[u32], locals: usize) -> bool
    requires { Spotted ops.now args.now }
    ensures { Tells ops.now args.now (fold_ok locals) result }
{
    spot_ok(ops, args, locals, 64) && usable(ops, args)
}

// Are the items a place within the limits of the aim?
fn place_ok(ops: &[u32], args: &[u32], locals: usize, aim: Aim) -> bool
    ensures { result ≡ passes (limits aim locals) (spot_of ops.now args.now) }
{
    if !is_place(ops, args) {
        return false;
    }
    match aim {
        Aim::Uses => used_ok(ops, args, locals),
        Aim::Folds => fold_ok(ops, args, locals),
        Aim::Unfolds => spot_ok(ops, args, locals, 63),
    }
}

// The types, the local types, the state, then the place: refusal 1, 3 or 4.
fn check_use(
    types: &[u32],
    offs: &mut [u32],
    locals: &[u32],
    s: State,
    ops: &[u32],
    args: &[u32],
    aim: Aim,
) -> Result<(), Refusal>
    requires { 4096 ≤ length offs.old }
    ensures { Tested types.now locals.now offs.new (value s) ops.now args.now (limits aim (length locals.now)) (code result) }
{
    check_locals(types, locals, offs)?;
    check_given(&Types { words: types, offs }, locals, s)?;
    if !place_ok(ops, args, locals.len(), aim) {
        return Err(Refusal::BadPlace);
    }
    Ok(())
}

// Kept: four calls of one shape. Given the work as a closure, one function needs a contract over what a closure does to a lent state, and no call gets shorter.

// `Env::projection`: the place is used. What is recorded, and the state after; a refusal gives the state back as it came.
pub fn projection(types: &[u32], locals: &[u32], s: State, ops: &[u32], args: &[u32]) -> Usage
    ensures records { Records s (call_projection types.now locals.now (value s) ops.now args.now) result }
    ensures promised { Uses types.now locals.now s ops.now args.now result }
{
    let mut offs = [0u32; 4096];
    let mut after = s;
    let answer = match check_use(types, &mut offs, locals, s, ops, args, Aim::Uses) {
        Ok(()) => {
            let types = Types {
                words: types,
                offs: &offs,
            };
            project::projection(&types, locals, &mut after, ops, args)
        }
        Err(n) => Err(n),
    };
    Usage {
        answer,
        state: after,
    }
}

// `Env::downcast`: walk the place, then downcast to the variant.
pub fn downcast(
    types: &[u32],
    locals: &[u32],
    s: State,
    ops: &[u32],
    args: &[u32],
    variant: u32,
) -> Moved
    ensures gives { Gives s (call_downcast types.now locals.now (value s) ops.now args.now variant) result }
    ensures promised { Refuses use_numbers result }
{
    let mut offs = [0u32; 4096];
    let mut after = s;
    let answer = match check_use(types, &mut offs, locals, s, ops, args, Aim::Uses) {
        Ok(()) => {
            let types = Types {
                words: types,
                offs: &offs,
            };
            open::downcast(&types, locals, &mut after, ops, args, variant)
        }
        Err(n) => Err(n),
    };
    Moved {
        answer,
        state: after,
    }
}

// Carries out a fold: walk the place, then fold the node.
pub fn fold(types: &[u32], locals: &[u32], s: State, ops: &[u32], args: &[u32]) -> Moved
    ensures gives { Gives s (call_carry types.now locals.now Fold (value s) ops.now args.now) result }
    ensures promised { Refuses use_numbers result }
{
    let mut offs = [0u32; 4096];
    let mut after = s;
    let answer = match check_use(types, &mut offs, locals, s, ops, args, Aim::Folds) {
        Ok(()) => {
            let types = Types {
                words: types,
                offs: &offs,
            };
            project::fold(&types, locals, &mut after, ops, args)
        }
        Err(n) => Err(n),
    };
    Moved {
        answer,
        state: after,
    }
}

// Carries out an unfold: walk the place; a folded node opens one level.
pub fn unfold(types: &[u32], locals: &[u32], s: State, ops: &[u32], args: &[u32]) -> Moved
    ensures gives { Gives s (call_carry types.now locals.now Unfold (value s) ops.now args.now) result }
    ensures promised { Refuses unfold_numbers result }
{
    let mut offs = [0u32; 4096];
    let mut after = s;
    let answer = match check_use(types, &mut offs, locals, s, ops, args, Aim::Unfolds) {
        Ok(()) => {
            let types = Types {
                words: types,
                offs: &offs,
            };
            open::unfold(&types, locals, &mut after, ops, args)
        }
        Err(n) => Err(n),
    };
    Moved {
        answer,
        state: after,
    }
}
