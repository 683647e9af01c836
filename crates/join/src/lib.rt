// The join of two states. The call for users stands here.
#![tactic(auto)]

ghost use Rattle.std.specs.Prelude.{◌≡◌};
ghost use Rattle.model.specs.Calls.{call_join};
ghost use Rattle.state.specs.Value.{value};
ghost use Rattle.join.specs.Answers.{refusal, Joins, Promises};

pub mod ends;
pub mod settle;
pub mod trees;

use input::{check_given, check_locals};
use refusal::Refusal;
use state::nodes::State;
use trees::join_into;
use type_record::types::Types;

// Whether the first state changed, or the refusal; and the first state as it is then.
#[derive(Drop)]
pub struct Merged {
    pub answer: Result<bool, Refusal>,
    pub state: State,
}

fn refused(r: Refusal, s: State) -> Merged
    ensures { result ≡ refusal r s }
{
    Merged {
        answer: Err(r),
        state: s,
    }
}

// `Env::join`: the first state and its flag.
pub fn join(types: &[u32], locals: &[u32], s: State, e: State) -> Merged
    ensures joins { Joins s (call_join types.now locals.now (value s) (value e)) result }
    ensures promised { Promises types.now locals.now s e result }
{
    let mut offs = [0u32; 4096];
    if let Err(r) = check_locals(types, locals, &mut offs) {
        return refused(r, s);
    }
    let types = &Types {
        words: types,
        offs: &offs,
    };
    if let Err(r) = check_given(types, locals, s) {
        return refused(r, s);
    }
    if let Err(r) = check_given(types, locals, e) {
        return refused(r, s);
    }
    let mut forms = [0u16; 512];
    let mut whats = [0u16; 512];
    let Some(j) = join_into(types, locals, s, e, &mut forms, &mut whats) else {
        return refused(Refusal::StateFull, s);
    };
    Merged {
        answer: Ok(j.changed),
        state: State {
            forms,
            whats,
            nodes: j.nodes,
        },
    }
}
