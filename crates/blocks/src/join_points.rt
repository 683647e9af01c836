// The graph of blocks: incoming target items, join points and their shares.
ghost use Rattle.std.specs.Prelude.{◌≡◌, ◌||◌, ◌&&◌, ◌<◌, ◌≤◌, length, eqb, ltb};
ghost use Rattle.model.specs.Function.{nblocks};
ghost use Rattle.model.specs.Block.{incoming, join_points};
ghost use Rattle.mir.specs.Sizes.{Formed};
ghost use Rattle.blocks.specs.Points.{share_number, Zeros, OfEachBlock};

use mir::function::Record;
use mir::items::TARGET;

// How many target items name each block.
fn count_incoming(fun: &Record, counts: &mut [u32])
    requires formed { Formed fun.now.words.now }
    requires in_bounds { 256 ≤ length counts.old }
    requires zeros { Zeros counts.old }
    ensures { OfEachBlock fun.now.words.now (incoming fun.now.words.now) counts.old counts.new }
{
    for i in 0..fun.nitems() {
        if fun.op_of(i) == TARGET {
            counts[fun.arg_of(i) as usize] += 1;
        }
    }
}

fn is_join(n: u32, b: usize) -> bool
    ensures { result ≡ ltb 1 n || (eqb b 0 && ltb 0 n) }
{
    1 < n || (b == 0 && 0 < n)
}

// The number of each join point's share, from 1 on, in block order, and 0 for any other block; their count.
// points comes as zeros.
pub fn fill_join_points(fun: &Record, points: &mut [u32]) -> usize
    requires formed { Formed fun.now.words.now }
    requires in_bounds { 256 ≤ length points.old }
    requires zeros { Zeros points.old }
    ensures count { result ≡ join_points fun.now.words.now }
    ensures shares { OfEachBlock fun.now.words.now (share_number fun.now.words.now) points.old points.new }
{
    count_incoming(fun, points);
    let mut k: u32 = 0;
    for b in 0..fun.nblocks() {
        if is_join(points[b], b) {
            k += 1;
            points[b] = k;
        } else {
            points[b] = 0;
        }
    }
    k as usize
}
