// The items of a block up to its ender: each place used is projected, and recorded where the pass records.
ghost use Rattle.std.specs.Prelude.{◌≡◌, true, ◌∷◌, suc, ◌<◌, take};
ghost use Rattle.model.specs.State.{pairs};
ghost use Rattle.model.specs.Function.{nitems, local_types};
ghost use Rattle.model.specs.Block.{uses_place};
ghost use Rattle.base.specs.Ranges.{BothLong};
ghost use Rattle.statements.specs.Kept.{point_of, Counted};
ghost use Rattle.state.specs.Given.{Stated};
ghost use Rattle.statements.specs.Points.{Says};
ghost use Rattle.body.specs.Uses.{Within, uses, run_of, Runs};

use blocks::function::Function;
use blocks::place::{root_before, uses_place};
use env::project::{Projected, projection};
use refusal::Refusal;
use state::nodes::State;
use statements::{FOLD, Out, UNFOLD, at_point, point_of, record};

// The items from..end, all at the entry's point or each at its own.
#[derive(Clone, Copy)]
pub struct Items {
    pub from: usize,
    pub end: usize,
    pub entry: bool,
}

// One statement of the first n items of a place, told with a number, if the pass records.
fn tell(
    out: &mut [u32],
    o: Out,
    verb: u32,
    number: usize,
    ops: &[u32],
    args: &[u32],
    n: usize,
) -> Out
    requires counted { Counted out.old o }
    requires both_long { BothLong n ops.now args.now }
    requires number_bound { number < 255 }
    ensures { Says out.old o out.new result (point_of o ∷ (verb, suc number) ∷ pairs (take n ops.now) (take n args.now)) }
{
    if o.recording {
        return record(out, o, verb, number as u32 + 1, ops, args, n);
    }
    o
}

// The place before item i is used, at the item's point or at the entry's.
fn use_place(
    fun: &Function,
    i: usize,
    entry: bool,
    s: &mut State,
    out: &mut [u32],
    o: Out,
) -> Result<Out, Refusal>
    requires i_bound { i < nitems fun.now.record.words.now }
    requires i_value { uses_place fun.now.record.words.now i ≡ true }
    requires stated { Stated fun.now.types.words.now (local_types fun.now.record.words.now) s.old }
    requires counted { Counted out.old o }
    ensures { Runs fun.now.types.words.now fun.now.record.words.now (uses fun.now.types.words.now fun.now.record.words.now entry 1 i) s.old out.old o out.new result s.new }
{
    let p = at_point(o, point_of(i, entry));
    let root = root_before(&fun.record, i);
    let ops = fun.record.ops_from(root, i);
    let args = fun.record.args_from(root, i);
    let r = projection(&fun.types, fun.record.local_types(), s, ops, args)?;
    match r.recorded {
        Projected::Nothing => Ok(p),
        Projected::Fold => Ok(tell(out, p, FOLD, 0, ops, args, ops.len())),
        Projected::Unfold(n) => Ok(tell(out, p, UNFOLD, r.passed, ops, args, n + 1)),
    }
}

// These items, from the state s on.
pub fn pass_items(
    fun: &Function,
    items: Items,
    s: &mut State,
    out: &mut [u32],
    o: Out,
) -> Result<Out, Refusal>
    requires within { Within fun.now.record.words.now items }
    requires stated { Stated fun.now.types.words.now (local_types fun.now.record.words.now) s.old }
    requires counted { Counted out.old o }
    ensures { Runs fun.now.types.words.now fun.now.record.words.now (run_of fun.now.types.words.now fun.now.record.words.now items) s.old out.old o out.new result s.new }
{
    let mut q = o;
    for i in items.from..items.end {
        if uses_place(&fun.record, i) {
            q = use_place(fun, i, items.entry, s, out, q)?;
        }
    }
    Ok(q)
}
