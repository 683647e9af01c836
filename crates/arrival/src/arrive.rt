// Arrivals at a join point, whose share of the store is lent: `goto_join_point` of both passes.
ghost use Rattle.std.specs.Prelude.{◌≡◌, ◌↔◌, true, ◌<◌, length, IsTrue};
ghost use Rattle.model.specs.Function.{nitems, local_types};
ghost use Rattle.model.specs.Rounds.{put};
ghost use Rattle.mir.specs.Sizes.{Formed};
ghost use Rattle.refusal.specs.Refusal.{code};
ghost use Rattle.statements.specs.Kept.{Counted};
ghost use Rattle.state.specs.Given.{Stated};
ghost use Rattle.arrival.specs.Shares.{waits_in, BitFor};
ghost use Rattle.arrival.specs.Arrivals.{Shelved, Filled, Arriving, Steady, Reconciling, Stands};

use crate::jump::Jump;
use crate::memory::{set_stored, stored, visited};
use blocks::function::Function;
use collect::states::collect_fold_unfolds;
use join::trees::join_into;
use mir::function::Record;
use queue::insert;
use refusal::Refusal;
use state::nodes::State;
use state::share::{load_state, save_state};
use statements::{Out, at_point, point_of};

// The block c waits.
fn wait(waits: &mut [u64], fun: &Record, c: usize)
    requires formed { Formed fun.now.words.now }
    requires bit_for { BitFor fun.now.words.now c waits.old }
    ensures { waits_in fun.now.words.now waits.new ≡ put (waits_in fun.now.words.now waits.old) c true }
{
    insert(waits, fun.rank_of(c));
}

// Is the state the one that stands in this share, whose count is k?
fn stands(k: u32, s: State, forms: &[u16], whats: &[u16]) -> bool
    ensures { IsTrue result ↔ Stands k s forms.now whats.now }
{
    k != 0
        && k as usize - 1 == s.nodes
        && forms == s.forms.as_slice()
        && whats == s.whats.as_slice()
}

// The state is saved where none is stored, and joined with the one that is.
fn merge(
    fun: &Function,
    memo: &mut [u32],
    waits: &mut [u64],
    c: usize,
    s: State,
    forms: &mut [u16],
    whats: &mut [u16],
) -> Result<(), Refusal>
    requires stated { Stated fun.now.types.words.now (local_types fun.now.record.words.now) s }
    requires shelved { Shelved fun.now.types.words.now fun.now.record.words.now memo.old forms.old whats.old c }
    requires bit_for { BitFor fun.now.record.words.now c waits.old }
    ensures arriving { Arriving fun.now.types.words.now fun.now.record.words.now c s memo waits forms whats (code result) }
    ensures lengths { Steady memo waits forms whats }
{
    let k = stored(memo, c);
    if k == 0 {
        save_state(s, forms, whats);
        set_stored(memo, c, s.nodes as u32 + 1);
        wait(waits, &fun.record, c);
        return Ok(());
    }
    let old = load_state(forms, whats, k as usize - 1);
    let Some(j) = join_into(&fun.types, fun.record.local_types(), old, s, forms, whats) else {
        return Err(Refusal::StateFull);
    };
    if j.changed {
        set_stored(memo, c, j.nodes as u32 + 1);
        wait(waits, &fun.record, c);
    }
    Ok(())
}

// `Infer::goto_join_point`: the state arrives at the block c. A state that is stored there already changes nothing.
pub fn arrive(
    fun: &Function,
    memo: &mut [u32],
    waits: &mut [u64],
    c: usize,
    s: State,
    forms: &mut [u16],
    whats: &mut [u16],
) -> Result<(), Refusal>
    requires stated { Stated fun.now.types.words.now (local_types fun.now.record.words.now) s }
    requires shelved { Shelved fun.now.types.words.now fun.now.record.words.now memo.old forms.old whats.old c }
    requires bit_for { BitFor fun.now.record.words.now c waits.old }
    ensures arriving { Arriving fun.now.types.words.now fun.now.record.words.now c s memo waits forms whats (code result) }
    ensures lengths { Steady memo waits forms whats }
{
    let k = stored(memo, c);
    if stands(k, s, forms, whats) {
        return Ok(());
    }
    merge(fun, memo, waits, c, s, forms, whats)
}

// `Elaboration::goto_join_point`: the statements from the state to the stored one are recorded at the jump's item, or at the entry.
pub fn reconcile<'a>(
    fun: &Function,
    memo: &[u32],
    waits: &mut [u64],
    j: Jump,
    s: State,
    forms: &'a [u16],
    whats: &'a [u16],
    out: &mut [u32],
    o: Out,
) -> Result<Out, Refusal>
    requires stated { Stated fun.now.types.words.now (local_types fun.now.record.words.now) s }
    requires filled { Filled fun.now.types.words.now fun.now.record.words.now memo.now forms.now whats.now j.block }
    requires bit_for { BitFor fun.now.record.words.now j.block waits.old }
    requires item_bound { j.item < nitems fun.now.record.words.now }
    requires counted { Counted out.old o }
    ensures reconciling { Reconciling fun.now.types.words.now fun.now.record.words.now j s memo.now forms.now whats.now waits out o result }
    ensures lengths { length waits.new ≡ length waits.old }
{
    let k = stored(memo, j.block);
    let to = load_state(forms, whats, k as usize - 1);
    let p = at_point(o, point_of(j.item, j.entry));
    let q = collect_fold_unfolds(&fun.types, fun.record.local_types(), s, to, out, p)?;
    if !visited(memo, j.block) {
        wait(waits, &fun.record, j.block);
    }
    Ok(q)
}
