// `basic_block` and `goto`. A target that is no join point is entered at once.
ghost use Rattle.std.specs.Prelude.{true, ◌<◌};
ghost use Rattle.model.specs.Function.{nitems, nblocks, local_types};
ghost use Rattle.statements.specs.Kept.{Counted};
ghost use Rattle.state.specs.Given.{Stated};
ghost use Rattle.arrival.specs.Shares.{arrays_in, change, Shared};
ghost use Rattle.visit.specs.Ways.{Come, Leaps, Beginning};
ghost use Rattle.arrival.specs.Visits.{Ongoing};
ghost use Rattle.visit.specs.Visits.{jumping, entering, departing, Returns, Jumps, Enters, Departs, start_jump};

use arrival::jump::Jump;
use arrival::meet::meet;
use blocks::function::Function;
use body::arms::{plan_of, target_state};
use body::items::{Items, pass_items};
use collect::states::collect_folds_at_ret;
use mir::items::{RETURN, TARGET};
use refusal::Refusal;
use state::nodes::State;
use statements::{Out, at_point, point_of};

// A block that is entered, and how many blocks the way to it has not entered.
#[derive(Drop)]
pub struct Way {
    pub block: usize,
    pub left: usize,
}

// What the return at the item i records, in the state s.
fn returned(fun: &Function, i: usize, s: &State, out: &mut [u32], o: Out) -> Out
    requires i_bound { i < nitems fun.now.record.words.now }
    requires stated { Stated fun.now.types.words.now (local_types fun.now.record.words.now) s.now }
    requires counted { Counted out.old o }
    ensures { Returns fun.now.types.words.now fun.now.record.words.now i s.now out.old o out.new result }
{
    if o.recording {
        return collect_folds_at_ret(
            &fun.types,
            fun.record.local_types(),
            fun.record.nargs(),
            &s.forms,
            &s.whats,
            out,
            at_point(o, point_of(i, false)),
        );
    }
    o
}

// The jump is taken.
#[cycle(basic_block_goto_terminator)]
fn goto(
    fun: &Function,
    points: &[u32],
    memo: &mut [u32],
    waits: &mut [u64],
    forms: &mut [u16],
    whats: &mut [u16],
    out: &mut [u32],
    j: Jump,
    s: State,
    o: Out,
) -> Result<Out, Refusal>
    requires shared { Shared fun.now.record.words.now points.now }
    requires ongoing { Ongoing fun.now.types.words.now fun.now.record.words.now (arrays_in memo.old waits.old forms.old whats.old) out.old o s (jumping fun.now.types.words.now fun.now.record.words.now j) }
    requires leaps { Leaps fun.now.types.words.now fun.now.record.words.now j }
    ensures { Jumps fun.now.types.words.now fun.now.record.words.now (change memo waits forms whats) out j s o result }
{
    let c = j.block;
    if points[c] != 0 {
        return meet(fun, points, memo, waits, forms, whats, out, j, s, o);
    }
    let w = Way {
        block: c,
        left: j.left - 1,
    };
    basic_block(fun, points, memo, waits, forms, whats, out, w, s, o)
}

// A block is entered in the state s.
#[cycle(basic_block_goto_terminator)]
pub fn basic_block(
    fun: &Function,
    points: &[u32],
    memo: &mut [u32],
    waits: &mut [u64],
    forms: &mut [u16],
    whats: &mut [u16],
    out: &mut [u32],
    w: Way,
    mut s: State,
    o: Out,
) -> Result<Out, Refusal>
    requires shared { Shared fun.now.record.words.now points.now }
    requires ongoing { Ongoing fun.now.types.words.now fun.now.record.words.now (arrays_in memo.old waits.old forms.old whats.old) out.old o s (entering fun.now.types.words.now fun.now.record.words.now w) }
    requires come { Come fun.now.types.words.now fun.now.record.words.now w }
    ensures { Enters fun.now.types.words.now fun.now.record.words.now (change memo waits forms whats) out w s o result }
{
    let from = fun.record.start_of(w.block);
    let end = fun.record.stop_of(w.block);
    let items = Items {
        from,
        end,
        entry: false,
    };
    let q = pass_items(fun, items, &mut s, out, o)?;
    if fun.record.op_of(end - 1) == RETURN {
        return Ok(returned(fun, end - 1, &s, out, q));
    }
    terminator(fun, points, memo, waits, forms, whats, out, w, &s, q)
}

// The ender of the block: it is left by its targets, in the state s that its items leave. All arms of a match are tried first.
#[cycle(basic_block_goto_terminator)]
fn terminator(
    fun: &Function,
    points: &[u32],
    memo: &mut [u32],
    waits: &mut [u64],
    forms: &mut [u16],
    whats: &mut [u16],
    out: &mut [u32],
    w: Way,
    s: &State,
    o: Out,
) -> Result<Out, Refusal>
    requires shared { Shared fun.now.record.words.now points.now }
    requires ongoing { Ongoing fun.now.types.words.now fun.now.record.words.now (arrays_in memo.old waits.old forms.old whats.old) out.old o s.now (departing fun.now.types.words.now fun.now.record.words.now w) }
    requires come { Come fun.now.types.words.now fun.now.record.words.now w }
    ensures { Departs fun.now.types.words.now fun.now.record.words.now (change memo waits forms whats) out w s.now o result }
{
    let b = w.block;
    let p = plan_of(fun, b, s)?;
    let mut q = o;
    for i in fun.record.start_of(b)..fun.record.stop_of(b) {
        if fun.record.op_of(i) == TARGET {
            let u = target_state(fun, p, i, s);
            let j = Jump {
                item: i,
                entry: false,
                block: fun.record.arg_of(i) as usize,
                left: w.left,
            };
            q = goto(fun, points, memo, waits, forms, whats, out, j, u, q)?;
        }
    }
    Ok(q)
}

// The jump from the entry to the start block.
// Kept: beside `goto`, outside the cycle of calls, so that `meet` keeps a frame of its own (docs/DECISIONS.md, stack).
pub fn begin(
    fun: &Function,
    points: &[u32],
    memo: &mut [u32],
    waits: &mut [u64],
    forms: &mut [u16],
    whats: &mut [u16],
    out: &mut [u32],
    s: State,
    o: Out,
) -> Result<Out, Refusal>
    requires shared { Shared fun.now.record.words.now points.now }
    requires ongoing { Ongoing fun.now.types.words.now fun.now.record.words.now (arrays_in memo.old waits.old forms.old whats.old) out.old o s (jumping fun.now.types.words.now fun.now.record.words.now (start_jump fun.now.record.words.now)) }
    requires beginning { Beginning fun.now.record.words.now }
    ensures { Jumps fun.now.types.words.now fun.now.record.words.now (change memo waits forms whats) out (start_jump fun.now.record.words.now) s o result }
{
    let n = fun.record.nblocks();
    if points[0] != 0 {
        let j = Jump {
            item: 0,
            entry: true,
            block: 0,
            left: n,
        };
        return meet(fun, points, memo, waits, forms, whats, out, j, s, o);
    }
    let w = Way {
        block: 0,
        left: n - 1,
    };
    basic_block(fun, points, memo, waits, forms, whats, out, w, s, o)
}
