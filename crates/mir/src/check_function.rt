// Refusal 2: does a function record keep its layout?
ghost use Rattle.std.specs.Prelude.{◌≡◌, true, ◌<◌, ◌≤◌};
ghost use Rattle.model.specs.Types.{types_ok};
ghost use Rattle.model.specs.State.{locals_ok};
ghost use Rattle.model.specs.Function.{nblocks, nitems, may_follow, after, arg_ok, function_sizes, starts_ok, ranks_ok, items_ok, function_ok};
ghost use Rattle.base.specs.Ranges.{Range};
ghost use Rattle.type_record.specs.Sizes.{Sized};
ghost use Rattle.mir.specs.Parts.{type_usable, begins, may_begin, item_ok};

use crate::function::Record;
use crate::items::{
    ARM, DEREF, DOWNCAST, FIELD, INDEX, NOTE, READ, ROOT, STOP, SWITCH, TARGET, USE,
};
use type_record::kinds::Kind;
use type_record::record::kind_at;

pub const MOST_LOCALS: usize = 256;

pub const MOST_BLOCKS: usize = 256;

pub const MOST_ITEMS: usize = 16384;

// What stands before an item: 0 the entry part, 1 a place in it, 2 a block's begin, or a use or note, 3 a place, 4 a read,
// 5 the place of a note, 6 a switch, or an arm's target, 7 an arm, 8 the block's end.
// Kept: numbers, since `may_follow` and `after` answer for any two.

// A place begins in the entry part, at a block's begin, behind a use, a note or a read; its elements follow it.
fn place_follows(before: u32, next: u32) -> bool
    requires { next ≤ 4 }
    ensures { result ≡ may_follow before next }
{
    match next {
        ROOT => matches!(before, 0 | 2 | 4),
        _ => matches!(before, 1 | 3 | 5),
    }
}

// A use follows a place, in the entry part too; a read one of a block; a note the place behind a read.
fn action_follows(before: u32, next: u32) -> bool
    requires { Range 5 next 7 }
    ensures { result ≡ may_follow before next }
{
    match next {
        USE => matches!(before, 1 | 3),
        READ => before == 3,
        _ => before == 5,
    }
}

// A switch follows its place, or has none. A target stands alone, follows an arm, or is the last of a switch. A return or a
// stop stands alone.
fn ender_follows(before: u32, next: u32) -> bool
    requires { Range 8 next 12 }
    ensures { result ≡ may_follow before next }
{
    match next {
        SWITCH => matches!(before, 2 | 3),
        ARM => before == 6,
        TARGET => matches!(before, 2 | 6 | 7),
        _ => before == 2,
    }
}

// May an item stand behind what stands before it? By ranges of item codes: place items, actions, enders. No other code is an
// item's.
pub fn may_follow(before: u32, next: u32) -> bool
    ensures { result ≡ may_follow before next }
{
    match next {
        ROOT..=INDEX => place_follows(before, next),
        USE..=NOTE => action_follows(before, next),
        SWITCH..=STOP => ender_follows(before, next),
        _ => false,
    }
}

#[tactic(auto, unfolding(model::specs::Function::after))]
fn after_root(before: u32) -> u32
    ensures { result ≡ after before 0 }
{
    match before {
        0 => 1,
        2 => 3,
        _ => 5,
    }
}

#[tactic(auto, unfolding(model::specs::Function::after))]
fn after_action(before: u32, op: u32) -> u32
    requires { Range 5 op 7 }
    ensures { result ≡ after before op }
{
    match op {
        READ => 4,
        USE if before == 1 => 0,
        _ => 2,
    }
}

#[tactic(auto, unfolding(model::specs::Function::after))]
fn after_ender(before: u32, op: u32) -> u32
    requires { 8 ≤ op }
    ensures { result ≡ after before op }
{
    match op {
        SWITCH => 6,
        ARM => 7,
        TARGET if before == 7 => 6,
        _ => 8,
    }
}

// What stands before the item behind this one: place items, actions, enders.
pub fn after(before: u32, op: u32) -> u32
    ensures { result ≡ after before op }
{
    match op {
        ROOT => after_root(before),
        DEREF..=INDEX => before,
        USE..=NOTE => after_action(before, op),
        _ => after_ender(before, op),
    }
}

// An arg not named is 0, and a target is below B.
#[tactic(auto, unfolding(model::specs::Function::arg_ok))]
fn arg_ok(fun: &Record, i: usize) -> bool
    requires i_bound { i < nitems fun.now.words.now }
    ensures { result ≡ arg_ok fun.now.words.now i }
{
    let a = fun.arg_of(i);
    match fun.op_of(i) {
        TARGET => (a as usize) < fun.nblocks(),
        ROOT | FIELD | DOWNCAST | ARM => true,
        _ => a == 0,
    }
}

#[tactic(auto, unfolding(model::specs::Function::function_sizes))]
fn function_sizes(fun: &[u32]) -> bool
    ensures { result ≡ function_sizes fun.now }
{
    if fun.len() < 4 {
        return false;
    }
    let l = fun[0] as usize;
    let a = fun[1] as usize;
    let b = fun[2] as usize;
    let i = fun[3] as usize;
    1 <= l
        && l <= MOST_LOCALS
        && a < l
        && 1 <= b
        && b <= MOST_BLOCKS
        && i <= MOST_ITEMS
        && fun.len() == 4 + l + b + b + i + i
}

#[tactic(auto, unfolding(crate::specs::Parts::type_usable))]
fn local_ok(types: &[u32], t: u32) -> bool
    requires { Sized types.now }
    ensures { result ≡ type_usable types.now t }
{
    t < types[0] && kind_at(types, t as usize) != Kind::Variant
}

// 1 to 256 local types, each below T and no variant.
#[tactic(auto, unfolding(model::specs::State::locals_ok))]
pub fn locals_ok(types: &[u32], locals: &[u32]) -> bool
    requires { Sized types.now }
    ensures { result ≡ locals_ok types.now locals.now }
{
    1 <= locals.len() && locals.len() <= MOST_LOCALS && locals.iter().all(|t| local_ok(types, *t))
}

// Starts rise strictly and lie below I.
#[tactic(auto, unfolding(model::specs::Function::starts_ok))]
fn starts_ok(fun: &Record) -> bool
    ensures { result ≡ starts_ok fun.now.words.now }
{
    let n = fun.nitems();
    for b in 0..fun.nblocks() {
        let s = fun.start_of(b);
        if fun.stop_of(b) <= s {
            return false;
        }
        if n <= s {
            return false;
        }
    }
    true
}

// Ranks are 0 to B - 1, each once: seen marks those of the blocks before.
#[tactic(auto, unfolding(model::specs::Function::ranks_ok))]
fn ranks_ok(fun: &Record) -> bool
    ensures { result ≡ ranks_ok fun.now.words.now }
{
    let n = fun.nblocks();
    let mut seen = [false; 256];
    for b in 0..n {
        let r = fun.rank_of(b);
        if n <= r {
            return false;
        }
        if seen[r] {
            return false;
        }
        seen[r] = true;
    }
    true
}

// Is item i the first of the block b?
#[tactic(auto, unfolding(crate::specs::Parts::begins))]
fn begins(fun: &Record, b: usize, i: usize) -> bool
    ensures { result ≡ begins fun.now.words.now b i }
{
    b < fun.nblocks() && fun.start_of(b) == i
}

// May a block begin behind this? Where the entry part is over, or the block before has ended.
#[tactic(auto, unfolding(crate::specs::Parts::may_begin))]
fn may_begin(before: u32) -> bool
    ensures { result ≡ may_begin before }
{
    matches!(before, 0 | 8)
}

#[tactic(auto, unfolding(crate::specs::Parts::item_ok))]
fn item_ok(fun: &Record, i: usize, before: u32) -> bool
    requires i_bound { i < nitems fun.now.words.now }
    ensures { result ≡ item_ok fun.now.words.now i before }
{
    may_follow(before, fun.op_of(i)) && arg_ok(fun, i)
}

fn items_ok(fun: &Record) -> bool
    ensures { result ≡ items_ok fun.now.words.now }
{
    let mut before: u32 = 0;
    let mut b = 0;
    for i in 0..fun.nitems() {
        if begins(fun, b, i) {
            if !may_begin(before) {
                return false;
            }
            before = 2;
            b += 1;
        }
        if !item_ok(fun, i, before) {
            return false;
        }
        before = after(before, fun.op_of(i));
    }
    before == 8
}

// The function record passes, over a type record that does.
#[tactic(auto, unfolding(model::specs::Function::function_ok))]
pub fn check_function(types: &[u32], fun: &[u32]) -> bool
    requires { types_ok types.now ≡ true }
    ensures { result ≡ function_ok types.now fun.now }
{
    if !function_sizes(fun) {
        return false;
    }
    let record = Record { words: fun };
    locals_ok(types, record.local_types())
        && starts_ok(&record)
        && ranks_ok(&record)
        && items_ok(&record)
}
