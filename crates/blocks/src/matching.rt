// Which place a switch matches on: the place read before the latest note of the switch's place in the block.
ghost use Rattle.std.specs.Prelude.{◌≡◌, true, ◌+◌, ◌-◌, ◌<◌, ◌≤◌};
ghost use Rattle.model.specs.Place.{same_spot};
ghost use Rattle.model.specs.Function.{nblocks};
ghost use Rattle.model.specs.Block.{root_before, spot_before, latest_note};
ghost use Rattle.mir.specs.Sizes.{Formed};
ghost use Rattle.refusal.specs.Refusal.{found};
ghost use Rattle.blocks.specs.Points.{matched_read, switch_item, UsedAt};

use crate::place::{root_before, uses_place};
use mir::function::Record;
use mir::items::{NOTE, SWITCH};

// Are the places that end before items i and j the same? root: the second's.
fn same_place(fun: &Record, i: usize, root: usize, j: usize) -> bool
    requires formed { Formed fun.now.words.now }
    requires used_at { UsedAt fun.now.words.now i }
    requires used_at_2 { UsedAt fun.now.words.now j }
    requires root_value { root ≡ root_before fun.now.words.now j }
    ensures { result ≡ same_spot (spot_before fun.now.words.now i) (spot_before fun.now.words.now j) }
{
    let r = root_before(fun, i);
    fun.ops_from(r, i) == fun.ops_from(root, j) && fun.args_from(r, i) == fun.args_from(root, j)
}

// The latest note of the place that ends before s, among the items of the block from lo on.
fn latest_note(fun: &Record, lo: usize, s: usize) -> Option<usize>
    requires formed { Formed fun.now.words.now }
    requires lo_le_s { lo ≤ s }
    requires used_at { UsedAt fun.now.words.now s }
    ensures { found result ≡ latest_note fun.now.words.now (spot_before fun.now.words.now s) lo (s - lo) }
{
    let root = root_before(fun, s);
    for j in (lo..s).rev() {
        if fun.op_of(j) == NOTE && same_place(fun, j, root, s) {
            return Some(j);
        }
    }
    None
}

// The block's switch.
fn switch_of(fun: &Record, b: usize) -> Option<usize>
    requires formed { Formed fun.now.words.now }
    requires b_bound { b < nblocks fun.now.words.now }
    ensures { found result ≡ switch_item fun.now.words.now b }
{
    for i in fun.start_of(b)..fun.stop_of(b) {
        if fun.op_of(i) == SWITCH {
            return Some(i);
        }
    }
    None
}

// The read whose place the block's switch matches on.
pub fn matched(fun: &Record, b: usize) -> Option<usize>
    requires formed { Formed fun.now.words.now }
    requires b_bound { b < nblocks fun.now.words.now }
    ensures { found result ≡ matched_read fun.now.words.now b }
{
    let s = switch_of(fun, b)?;
    if !uses_place(fun, s) {
        return None;
    }
    let j = latest_note(fun, fun.start_of(b), s)?;
    Some(root_before(fun, j) - 1)
}
