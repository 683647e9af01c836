// Statements that lead from one state to another, and the record that they are written to. The calls for users stand here.
#![tactic(auto)]

ghost use Rattle.std.specs.Prelude.{◌≡◌, length};
ghost use Rattle.model.specs.Calls.{call_collect, call_unfolds, call_folds};
ghost use Rattle.state.specs.Value.{value};
ghost use Rattle.statements.specs.Kept.{Counted};
ghost use Rattle.collect.specs.Answers.{start, refuses, Writes, ReadyTo, Ends, Leads, Opens, Settles};

pub mod states;

use input::{check_given, check_locals};
use refusal::Refusal;
use state::nodes::State;
use statements::{Counts, ENTRY, Out, Point, begun, finish, wipe};
use type_record::types::Types;

// Nothing is recorded yet, and every point of a collecting call is the entry.
fn start() -> Out
    ensures { result ≡ start }
{
    begun(true, Point { op: ENTRY, arg: 0 })
}

// A refusal: the buffer is zeroed.
fn refused(out: &mut [u32], r: Refusal) -> Result<Counts, Refusal>
    ensures { Writes (length out.old) (refuses r) result out.new }
{
    wipe(out);
    Err(r)
}

// A collector has ended: the record is written out, or it was refused.
fn ended(out: &mut [u32], c: Result<Out, Refusal>) -> Result<Counts, Refusal>
    requires { ReadyTo out.old c }
    ensures { Ends out.old c result out.new }
{
    match c {
        Ok(o) => finish(out, o),
        Err(r) => refused(out, r),
    }
}

// From one state to another.
pub fn collect_fold_unfolds(
    types: &[u32],
    locals: &[u32],
    s: State,
    e: State,
    out: &mut [u32],
) -> Result<Counts, Refusal>
    ensures writes { Writes (length out.old) (call_collect types.now locals.now (value s) (value e) (length out.old)) result out.new }
    ensures promised { Leads types.now locals.now s e result out.new }
{
    let mut offs = [0u32; 4096];
    if let Err(r) = check_locals(types, locals, &mut offs) {
        return refused(out, r);
    }
    let types = &Types {
        words: types,
        offs: &offs,
    };
    if let Err(r) = check_given(types, locals, s) {
        return refused(out, r);
    }
    if let Err(r) = check_given(types, locals, e) {
        return refused(out, r);
    }
    let c = states::collect_fold_unfolds(types, locals, s, e, out, start());
    ended(out, c)
}

// From all folded to a state.
pub fn collect_unfolds(
    types: &[u32],
    locals: &[u32],
    s: State,
    out: &mut [u32],
) -> Result<Counts, Refusal>
    ensures writes { Writes (length out.old) (call_unfolds types.now locals.now (value s) (length out.old)) result out.new }
    ensures promised { Opens types.now locals.now s result out.new }
{
    let mut offs = [0u32; 4096];
    if let Err(r) = check_locals(types, locals, &mut offs) {
        return refused(out, r);
    }
    let types = &Types {
        words: types,
        offs: &offs,
    };
    if let Err(r) = check_given(types, locals, s) {
        return refused(out, r);
    }
    let c = states::collect_unfolds(types, locals, s, out, start());
    ended(out, c)
}

// At return: of the locals 1 to a.
pub fn collect_folds_at_ret(
    types: &[u32],
    locals: &[u32],
    a: usize,
    s: State,
    out: &mut [u32],
) -> Result<Counts, Refusal>
    ensures writes { Writes (length out.old) (call_folds types.now locals.now a (value s) (length out.old)) result out.new }
    ensures promised { Settles types.now locals.now a s result out.new }
{
    let mut offs = [0u32; 4096];
    if let Err(r) = check_locals(types, locals, &mut offs) {
        return refused(out, r);
    }
    if locals.len() <= a {
        return refused(out, Refusal::BadState);
    }
    let types = &Types {
        words: types,
        offs: &offs,
    };
    if let Err(r) = check_given(types, locals, s) {
        return refused(out, r);
    }
    let o = states::collect_folds_at_ret(types, locals, a, &s.forms, &s.whats, out, start());
    finish(out, o)
}
