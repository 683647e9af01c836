// The arms of a match are tried, all before the first is entered: is the variant refused that each target opens?
ghost use Rattle.std.specs.Prelude.{◌≡◌, true, ◌<◌, length};
ghost use Rattle.model.specs.Types.{ntypes, types_ok};
ghost use Rattle.model.specs.Function.{nblocks, local_types};
ghost use Rattle.model.specs.Body.{variants, variant_of};
ghost use Rattle.type_record.specs.Sizes.{IsEnum};
ghost use Rattle.blocks.specs.Points.{UsedAt};
ghost use Rattle.refusal.specs.Refusal.{found};
ghost use Rattle.state.specs.Given.{Stated};
ghost use Rattle.body.specs.Arms.{Sought, Plans};
ghost use Rattle.body.specs.Tries.{match_on, Tests, Rested, Tries, Ends, Matching, Blank};
ghost use Rattle.body.specs.Uses.{Preceded};

use crate::arms::{Rest, Subject};
use blocks::function::Function;
use blocks::place::root_before;
use env::open::can_downcast;
use mir::items::{ARM, TARGET};
use refusal::Refusal;
use state::nodes::State;
use type_record::record::count_of;
use type_record::types::Types;

// The variant of a value.
pub fn variant_of(types: &Types, t: usize, x: usize) -> Option<usize>
    requires is_enum { IsEnum types.now.words.now t }
    ensures { found result ≡ variant_of x (variants types.now.words.now t) }
{
    for v in 0..types.count_of(t) {
        if types.discriminant(t, v) == x {
            return Some(v);
        }
    }
    None
}

// Is the variant v of the place read refused?
fn try_variant(fun: &Function, read: usize, v: u32, s: &State) -> Result<(), Refusal>
    requires used_at { UsedAt fun.now.record.words.now read }
    requires stated { Stated fun.now.types.words.now (local_types fun.now.record.words.now) s.now }
    ensures { Tests fun.now.types.words.now fun.now.record.words.now read v s.now result }
{
    let r = root_before(&fun.record, read);
    let ops = fun.record.ops_from(r, read);
    let args = fun.record.args_from(r, read);
    can_downcast(&fun.types, fun.record.local_types(), s, ops, args, v)
}

// The arm of the target item i is tried. Its variant is marked as taken.
fn try_arm(
    fun: &Function,
    on: Subject,
    i: usize,
    s: &State,
    taken: &mut [u8],
) -> Result<(), Refusal>
    requires sought { Sought fun.now.types.words.now fun.now.record.words.now on }
    requires preceded { Preceded fun.now.record.words.now i }
    requires stated { Stated fun.now.types.words.now (local_types fun.now.record.words.now) s.now }
    requires taken_len { length taken.old ≡ 16384 }
    ensures { Tries fun.now.types.words.now fun.now.record.words.now on i s.now taken.old taken.new result }
{
    let Some(v) = variant_of(&fun.types, on.typ, fun.record.arg_of(i - 1) as usize) else {
        return Err(Refusal::NoSuchValue);
    };
    if taken[v] != 0 {
        return Err(Refusal::NoSuchValue);
    }
    taken[v] = 1;
    try_variant(fun, on.read, v as u32, s)
}

// The variants that no arm took.
fn rest_of(types: &[u32], t: usize, taken: &[u8]) -> Rest
    requires types_value { types_ok types.now ≡ true }
    requires t_bound { t < ntypes types.now }
    requires taken_len { length taken.now ≡ 16384 }
    ensures { Rested types.now t taken.now result }
{
    let mut left = 0;
    let mut other = 0;
    for v in 0..count_of(types, t) {
        if taken[v] == 0 {
            left += 1;
            other = v as u32;
        }
    }
    Rest { left, other }
}

// The otherwise target, behind all arms: it opens the one variant that is left, if it is one.
fn try_other(fun: &Function, on: Subject, s: &State, taken: &[u8]) -> Result<Rest, Refusal>
    requires sought { Sought fun.now.types.words.now fun.now.record.words.now on }
    requires stated { Stated fun.now.types.words.now (local_types fun.now.record.words.now) s.now }
    requires taken_len { length taken.now ≡ 16384 }
    ensures { Ends fun.now.types.words.now fun.now.record.words.now on s.now taken.now result }
{
    let rest = rest_of(fun.types.words, on.typ, taken);
    if rest.left == 1 {
        try_variant(fun, on.read, rest.other, s)?;
    }
    Ok(rest)
}

// All arms of the block b, in order; then the otherwise target, which is the last. taken: none is yet. The variants that no arm took
// are told where there is an otherwise target.
pub fn try_arms(
    fun: &Function,
    b: usize,
    on: Subject,
    s: &State,
    taken: &mut [u8],
) -> Result<Rest, Refusal>
    requires b_bound { b < nblocks fun.now.record.words.now }
    requires stated { Stated fun.now.types.words.now (local_types fun.now.record.words.now) s.now }
    requires cases { Matching fun.now.types.words.now fun.now.record.words.now b on s.now }
    requires blank { Blank taken.old }
    ensures { Plans fun.now.types.words.now fun.now.record.words.now b s.now (match_on on result) }
{
    for i in fun.record.start_of(b)..fun.record.stop_of(b) {
        if fun.record.op_of(i) == TARGET {
            if fun.record.op_of(i - 1) != ARM {
                return try_other(fun, on, s, taken);
            }
            try_arm(fun, on, i, s, taken)?;
        }
    }
    Ok(Rest { left: 0, other: 0 })
}
