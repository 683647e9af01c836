// A state arrives at a join point: in the share of the store that the block owns.
ghost use Rattle.std.specs.Prelude.{◌≡◌, true};
ghost use Rattle.model.specs.Block.{is_join_point};
ghost use Rattle.arrival.specs.Shares.{arrays_in, change, Shared};
ghost use Rattle.arrival.specs.Visits.{meeting, Ongoing, Meets, JumpIn};

use crate::arrive::{arrive, reconcile};
use crate::jump::Jump;
use blocks::function::Function;
use refusal::Refusal;
use state::nodes::State;
use statements::Out;

// The state s arrives at a join point.
pub fn meet(
    fun: &Function,
    points: &[u32],
    memo: &mut [u32],
    waits: &mut [u64],
    forms: &mut [u16],
    whats: &mut [u16],
    out: &mut [u32],
    j: Jump,
    s: State,
    o: Out,
) -> Result<Out, Refusal>
    requires shared { Shared fun.now.record.words.now points.now }
    requires ongoing { Ongoing fun.now.types.words.now fun.now.record.words.now (arrays_in memo.old waits.old forms.old whats.old) out.old o s (meeting fun.now.types.words.now fun.now.record.words.now j) }
    requires jump_in { JumpIn fun.now.record.words.now j }
    requires block_value { is_join_point fun.now.record.words.now j.block ≡ true }
    ensures { Meets fun.now.types.words.now fun.now.record.words.now (change memo waits forms whats) out j s o result }
{
    let a = 512 * (points[j.block] as usize - 1);
    let e = a + 512;
    if o.recording {
        return reconcile(fun, memo, waits, j, s, &forms[a..e], &whats[a..e], out, o);
    }
    arrive(
        fun,
        memo,
        waits,
        j.block,
        s,
        &mut forms[a..e],
        &mut whats[a..e],
    )?;
    Ok(o)
}
