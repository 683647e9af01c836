// What every call on states tests first.
#![tactic(auto)]

ghost use Rattle.std.specs.Prelude.{◌≡◌, true, cond, ◌≤◌, length};
ghost use Rattle.model.specs.State.{decode, locals_ok};
ghost use Rattle.mir.specs.Parts.{is_some};
ghost use Rattle.refusal.specs.Refusal.{code};
ghost use Rattle.state.specs.Value.{value};
ghost use Rattle.input.specs.Input.{Checked};

use mir::check_function::locals_ok;
use refusal::Refusal;
use state::check_state::check_state;
use state::nodes::State;
use type_record::check_types::check_types;
use type_record::types::Types;

// The type record and the local types. offs then has the offsets of the parts.
pub fn check_locals(types: &[u32], locals: &[u32], offs: &mut [u32]) -> Result<(), Refusal>
    requires { 4096 ≤ length offs.old }
    ensures { Checked types.now locals.now offs.new (code result) }
{
    if !check_types(types, offs) {
        return Err(Refusal::BadTypes);
    }
    if !locals_ok(types, locals) {
        return Err(Refusal::BadState);
    }
    Ok(())
}

// A state of these locals.
pub fn check_given(types: &Types, locals: &[u32], s: State) -> Result<(), Refusal>
    requires locals_value { locals_ok types.now.words.now locals.now ≡ true }
    ensures { code result ≡ cond (is_some (decode types.now.words.now locals.now (value s))) 0 3 }
{
    if check_state(types, locals, s) {
        return Ok(());
    }
    Err(Refusal::BadState)
}
