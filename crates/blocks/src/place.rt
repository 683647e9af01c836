// Places, as runs of items: a root, then deref, field, downcast, index. Refusal 4.
ghost use Rattle.std.specs.Prelude.{◌≡◌, ◌+◌, ◌<◌, ◌≤◌};
ghost use Rattle.model.specs.Place.{usable, spot_ok, used_ok};
ghost use Rattle.model.specs.Function.{nitems};
ghost use Rattle.model.specs.Block.{root_before, uses_place, places_ok};
ghost use Rattle.model.specs.Calls.{spot_of};
ghost use Rattle.mir.specs.Sizes.{Formed};
ghost use Rattle.mir.specs.Parts.{Spotted, is_some, Tells};
ghost use Rattle.blocks.specs.Points.{steps_in};

use mir::function::Record;
use mir::items::{DOWNCAST, INDEX, ROOT, SWITCH, USE, is_element};

pub const MOST_ELEMENTS: usize = 128;

// How many deref and field elements stand before an index; ops has the root first.
fn steps(ops: &[u32]) -> usize
    ensures { result ≡ steps_in ops.now }
{
    ops.iter()
        .skip(1)
        .take_while(|o| **o != INDEX)
        .filter(|o| **o != DOWNCAST)
        .count()
}

// A used or folded place does not end in downcast with no index before.
pub fn usable(ops: &[u32], args: &[u32]) -> bool
    requires { Spotted ops.now args.now }
    ensures { Tells ops.now args.now (λ q. usable q.place) result }
{
    ops.contains(&INDEX) || ops[ops.len() - 1] != DOWNCAST
}

// A known local, at most 128 elements, at most `limit` deref and field elements before an index.
pub fn spot_ok(ops: &[u32], args: &[u32], locals: usize, limit: usize) -> bool
    requires { Spotted ops.now args.now }
    ensures { Tells ops.now args.now (spot_ok limit locals) result }
{
    (args[0] as usize) < locals && ops.len() <= MOST_ELEMENTS + 1 && steps(ops) <= limit
}

#[tactic(auto, unfolding(model::specs::Place::used_ok))]
pub fn used_ok(ops: &[u32], args: &[u32], locals: usize) -> bool
    requires { Spotted ops.now args.now }
    ensures { Tells ops.now args.now (used_ok locals) result }
{
    spot_ok(ops, args, locals, 63) && usable(ops, args)
}

// Does item i use a place? Use, read, note and switch do, but for a switch on a constant.
#[tactic(auto, unfolding(model::specs::Block::uses_place))]
pub fn uses_place(fun: &Record, i: usize) -> bool
    requires i_bound { i < nitems fun.now.words.now }
    ensures { result ≡ uses_place fun.now.words.now i }
{
    let o = fun.op_of(i);
    USE <= o && o <= SWITCH && 0 < i && fun.op_of(i - 1) <= INDEX
}

// The last root before item i.
#[tactic(auto, using(crate::proofs::Spots::root_now, crate::proofs::Spots::root_kept))]
pub fn root_before(fun: &Record, i: usize) -> usize
    requires i_bound { i ≤ nitems fun.now.words.now }
    ensures { result ≡ root_before fun.now.words.now i }
{
    for j in (0..i).rev() {
        if fun.op_of(j) == ROOT {
            return j;
        }
    }
    0
}

// The last root before item i + 1; root: the last before item i.
#[tactic(auto, using(crate::proofs::Spots::root_now, crate::proofs::Spots::root_kept))]
fn root_behind(fun: &Record, root: usize, i: usize) -> usize
    requires i_bound { i < nitems fun.now.words.now }
    requires root_value { root ≡ root_before fun.now.words.now i }
    ensures { result ≡ root_before fun.now.words.now (i + 1) }
{
    if fun.op_of(i) == ROOT { i } else { root }
}

// Refusal 4, over all places in item order.
pub fn places_ok(fun: &Record) -> bool
    requires { Formed fun.now.words.now }
    ensures { result ≡ places_ok fun.now.words.now }
{
    let l = fun.nlocals();
    let mut root = 0;
    for i in 0..fun.nitems() {
        root = root_behind(fun, root, i);
        if uses_place(fun, i) && !used_ok(fun.ops_from(root, i), fun.args_from(root, i), l) {
            return false;
        }
    }
    true
}

// Are the items a place: a root, then items 1 to 4?
pub fn is_place(ops: &[u32], args: &[u32]) -> bool
    ensures { result ≡ is_some (spot_of ops.now args.now) }
{
    let n = ops.len();
    if n == 0 || args.len() != n || ops[0] != ROOT {
        return false;
    }
    for j in 1..n {
        if !is_element(ops[j], args[j]) {
            return false;
        }
    }
    true
}
