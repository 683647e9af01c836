// The statement record in a lent buffer: statement count, entry count, op[], arg[]. While it grows, ops stand from word 2 on and
// args from the middle on; at the end the args move down. Entries for which there is no room are not told from one another.
#![tactic(auto)]

ghost use Rattle.std.specs.Prelude.{◌≡◌, [], ◌∷◌, ◌+◌, ◌%◌, ◌≤◌, length, take, replicate};
ghost use Rattle.model.specs.State.{pairs};
ghost use Rattle.base.specs.Ranges.{BothLong};
ghost use Rattle.statements.specs.Kept.{begun, at_point, point_of, room, Counted, Puts, Finishes};
ghost use Rattle.statements.specs.Points.{Points};
ghost use Rattle.statements.specs.Moved.{closed, cleared, Closable};

use refusal::Refusal;

pub mod numbers;

// Codes of points: before an item, and the entry.
pub const BEFORE: u32 = 13;

pub const ENTRY: u32 = 14;

// Codes of verbs.
pub const FOLD: u32 = 15;

pub const UNFOLD: u32 = 16;

// How many entries the second word of a record can count.
const MOST_ENTRIES: usize = u32::MAX as usize;

// A point: an item, or the entry.
#[derive(Clone, Copy)]
pub struct Point {
    pub op: u32,
    pub arg: u32,
}

// What is recorded so far; whether the pass records, and the point of what it records next.
#[derive(Clone, Copy)]
pub struct Out {
    pub statements: usize,
    pub entries: usize,
    pub recording: bool,
    pub point: Point,
}

// What a finished record counts: its statements, and their entries.
#[derive(Clone, Copy)]
pub struct Counts {
    pub statements: usize,
    pub entries: usize,
}

// Nothing is recorded yet.
pub fn begun(recording: bool, p: Point) -> Out
    ensures { result ≡ begun recording p }
{
    Out {
        statements: 0,
        entries: 0,
        recording,
        point: p,
    }
}

// What follows is recorded at the point p.
pub fn at_point(o: Out, p: Point) -> Out
    ensures { result ≡ at_point o p }
{
    Out { point: p, ..o }
}

// The point of item i, or the entry's.
pub fn point_of(i: usize, entry: bool) -> Point
    ensures { Points i entry result }
{
    if entry {
        Point { op: ENTRY, arg: 0 }
    } else {
        Point {
            op: BEFORE,
            arg: small(i),
        }
    }
}

// How many entries a buffer of n words has room for.
#[tactic(auto, unfolding(crate::specs::Kept::room))]
fn room(n: usize) -> usize
    ensures { result ≡ room n }
{
    n.saturating_sub(2) / 2
}

// One entry more.
#[tactic(auto, using(crate::proofs::One::puts_one, crate::proofs::One::puts_full), unfolding(crate::specs::Kept::room))]
fn put(out: &mut [u32], o: Out, op: u32, arg: u32) -> Out
    requires { Counted out.old o }
    ensures { Puts 0 out.old o out.new result ((op, arg) ∷ []) }
{
    let n = out.len();
    let r = room(n);
    let k = o.entries;
    if r <= k {
        return Out {
            entries: r + 1,
            ..o
        };
    }
    out[2 + k] = op;
    out[2 + r + k] = arg;
    Out {
        entries: k + 1,
        ..o
    }
}

// The first n items.
fn put_items(out: &mut [u32], o: Out, ops: &[u32], args: &[u32], n: usize) -> Out
    requires counted { Counted out.old o }
    requires both_long { BothLong n ops.now args.now }
    ensures { Puts 0 out.old o out.new result (pairs (take n ops.now) (take n args.now)) }
{
    let mut p = o;
    for j in 0..n {
        p = put(out, p, ops[j], args[j]);
    }
    p
}

// One statement: its point, its verb with a mark, the first n items of its place.
#[tactic(auto, unfolding(crate::specs::Kept::room))]
pub fn record(
    out: &mut [u32],
    o: Out,
    verb: u32,
    mark: u32,
    ops: &[u32],
    args: &[u32],
    n: usize,
) -> Out
    requires counted { Counted out.old o }
    requires both_long { BothLong n ops.now args.now }
    ensures puts { Puts 1 out.old o out.new result (point_of o ∷ (verb, mark) ∷ pairs (take n ops.now) (take n args.now)) }
    ensures at { result.point ≡ o.point }
{
    let a = put(out, o, o.point.op, o.point.arg);
    let b = put(out, a, verb, mark);
    let c = put_items(out, b, ops, args, n);
    let statements = if room(out.len()) < c.entries {
        o.statements
    } else {
        o.statements + 1
    };
    Out {
        statements,
        entries: c.entries,
        ..o
    }
}

// A number as a word.
pub fn small(n: usize) -> u32
    ensures { result ≡ n % 4294967296 }
{
    (n % 4294967296) as u32
}

// Zeros from a word on.
#[tactic(auto, unfolding(crate::specs::Moved::cleared))]
fn clear(out: &mut [u32], from: usize)
    requires { from ≤ length out.old }
    ensures { out.new ≡ cleared out.old from }
{
    out[from..].fill(0);
}

// All zeros.
pub fn wipe(out: &mut [u32])
    ensures { out.new ≡ replicate (length out.old) 0 }
{
    out.fill(0);
}

// The args move down behind the first e ops.
#[tactic(auto, unfolding(crate::specs::Moved::closed))]
fn close_up(out: &mut [u32], r: usize, e: usize)
    requires { Closable out.old r e }
    ensures { out.new ≡ closed out.old r e }
{
    out.copy_within(2 + r..2 + r + e, 2 + e);
}

// The record is finished; if it cannot be written, all is zeros.
#[tactic(auto, unfolding(crate::specs::Kept::room))]
pub fn finish(out: &mut [u32], o: Out) -> Result<Counts, Refusal>
    requires { Counted out.old o }
    ensures { Finishes out.old o out.new result }
{
    let n = out.len();
    let r = room(n);
    let e = o.entries;
    if n < 2 || r < e || MOST_ENTRIES < e {
        wipe(out);
        return Err(Refusal::ShortStore);
    }
    close_up(out, r, e);
    clear(out, 2 + e + e);
    out[0] = small(o.statements);
    out[1] = small(e);
    Ok(Counts {
        statements: o.statements,
        entries: e,
    })
}
