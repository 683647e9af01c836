// `run`: a pass is its opening at the entry, then turns until no block waits.
ghost use Rattle.std.specs.Prelude.{◌*◌, ◌≤◌, length};
ghost use Rattle.mir.specs.Sizes.{Formed};
ghost use Rattle.arrival.specs.Shares.{arrays_in, change, Shared};
ghost use Rattle.fold_unfold.specs.Answers.{Analysed};
ghost use Rattle.fold_unfold.specs.Runs.{fresh, Stored, Inverted, Begins, Opening, Opens, Turns, Runs, Wiped, StoreLong};

use arrival::memory::{clear_visited, set_visited, stored};
use blocks::function::Function;
use body::items::{Items, pass_items};
use mir::function::Record;
use queue::pop;
use refusal::Refusal;
use state::nodes::State;
use state::share::load_state;
use statements::{Out, begun, point_of};
use visit::block::{Way, basic_block, begin};

// The opening of a pass at the entry.
fn open_pass(
    fun: &Function,
    points: &[u32],
    memo: &mut [u32],
    waits: &mut [u64],
    forms: &mut [u16],
    whats: &mut [u16],
    out: &mut [u32],
    recording: bool,
) -> Result<Out, Refusal>
    requires shared { Shared fun.now.record.words.now points.now }
    requires opening { Opening fun.now.types.words.now fun.now.record.words.now recording (arrays_in memo.old waits.old forms.old whats.old) }
    ensures { Opens fun.now.types.words.now fun.now.record.words.now recording (change memo waits forms whats) out result }
{
    let mut s = State {
        forms: [0; 512],
        whats: [0; 512],
        nodes: fun.record.nlocals(),
    };
    let items = Items {
        from: 0,
        end: fun.record.start_of(0),
        entry: true,
    };
    let o = begun(recording, point_of(0, true));
    let q = pass_items(fun, items, &mut s, out, o)?;
    begin(fun, points, memo, waits, forms, whats, out, s, q)
}

// One popped block, with the blocks that it enters.
fn turn(
    fun: &Function,
    points: &[u32],
    memo: &mut [u32],
    waits: &mut [u64],
    forms: &mut [u16],
    whats: &mut [u16],
    out: &mut [u32],
    b: usize,
    o: Out,
) -> Result<Out, Refusal>
    requires shared { Shared fun.now.record.words.now points.now }
    requires stored { Stored fun.now.types.words.now fun.now.record.words.now b (arrays_in memo.old waits.old forms.old whats.old) out.old o }
    ensures { Turns fun.now.types.words.now fun.now.record.words.now (change memo waits forms whats) out b o result }
{
    set_visited(memo, b);
    let p = points[b] as usize;
    let k = stored(memo, b) as usize;
    let a = 512 * (p - 1);
    let e = a + 512;
    let s = load_state(&forms[a..e], &whats[a..e], k - 1);
    let w = Way {
        block: b,
        left: fun.record.nblocks() - 1,
    };
    basic_block(fun, points, memo, waits, forms, whats, out, w, s, o)
}

// A pass: its opening, then turns until no block waits.
fn run(
    fun: &Function,
    points: &[u32],
    blocks: &[u32],
    memo: &mut [u32],
    forms: &mut [u16],
    whats: &mut [u16],
    out: &mut [u32],
    recording: bool,
) -> Result<Out, Refusal>
    requires shared { Shared fun.now.record.words.now points.now }
    requires inverted { Inverted fun.now.record.words.now blocks.now }
    requires in_bounds { 512 ≤ length memo.old }
    requires begins { Begins fun.now.types.words.now fun.now.record.words.now recording (fresh memo.old forms.old whats.old) }
    ensures { Runs fun.now.types.words.now fun.now.record.words.now recording memo forms whats out result }
{
    clear_visited(memo);
    let mut waits = [0u64; 4];
    let mut o = open_pass(fun, points, memo, &mut waits, forms, whats, out, recording)?;
    while let Some(b) = pop(&mut waits, blocks, fun.record.nblocks()) {
        o = turn(fun, points, memo, &mut waits, forms, whats, out, b, o)?;
    }
    Ok(o)
}

// The block of each rank.
fn invert(fun: &Record, blocks: &mut [u32])
    requires formed { Formed fun.now.words.now }
    requires in_bounds { 256 ≤ length blocks.old }
    ensures { Inverted fun.now.words.now blocks.new }
{
    for b in 0..fun.nblocks() {
        blocks[fun.rank_of(b)] = b as u32;
    }
}

// Both passes of records that pass: what is stored, then what is recorded.
pub fn analyse(
    fun: &Function,
    points: &[u32],
    forms: &mut [u16],
    whats: &mut [u16],
    out: &mut [u32],
) -> Result<Out, Refusal>
    requires shared { Shared fun.now.record.words.now points.now }
    requires wiped { Wiped forms.old whats.old }
    requires store_long { StoreLong fun.now.record.words.now forms.old whats.old }
    ensures { Analysed fun.now.types.words.now fun.now.record.words.now forms.old whats.old out.old forms.new whats.new out.new result }
{
    let mut memo = [0u32; 512];
    let mut blocks = [0u32; 256];
    invert(&fun.record, &mut blocks);
    run(fun, points, &blocks, &mut memo, forms, whats, out, false)?;
    run(fun, points, &blocks, &mut memo, forms, whats, out, true)
}
