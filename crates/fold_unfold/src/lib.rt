// The whole-function call: the statements of a function.
#![tactic(auto)]

ghost use Rattle.std.specs.Prelude.{◌≡◌, true, ℕ, ◌≤◌, length, OnOk, IfErr};
ghost use Rattle.model.specs.Words.{word};
ghost use Rattle.model.specs.Types.{types_ok};
ghost use Rattle.model.specs.Replay.{Replayed};
ghost use Rattle.model.specs.Told.{number_ok, Numbered};
ghost use Rattle.model.specs.Promised.{OneOf, whole_numbers};
ghost use Rattle.refusal.specs.Refusal.{number};
ghost use Rattle.blocks.specs.Points.{Zeros};
ghost use Rattle.fold_unfold.specs.Answers.{Whole, Marked, WholeTold, AllZero, Checked};

pub mod run;

use blocks::function::Function;
use blocks::join_points::fill_join_points;
use blocks::place::places_ok;
use mir::check_function::check_function;
use mir::function::Record;
use refusal::Refusal;
use run::analyse;
use statements::numbers::{tell_numbers, unmark};
use statements::{Counts, finish};
use type_record::check_types::check_types;
use type_record::types::Types;

// The tests of what types that pass leave to test: the function, its places, and the store's length. points then has the numbers of the
// shares.
fn checked(
    types: &[u32],
    fun: &[u32],
    points: &mut [u32],
    forms: usize,
    whats: usize,
) -> Result<(), Refusal>
    requires types_value { types_ok types.now ≡ true }
    requires in_bounds { 256 ≤ length points.old }
    requires zeros { Zeros points.old }
    ensures { Checked types.now fun.now forms whats points.new result }
{
    if !check_function(types, fun) {
        return Err(Refusal::BadFunction);
    }
    let record = Record { words: fun };
    if !places_ok(&record) {
        return Err(Refusal::BadPlace);
    }
    let k = 512 * fill_join_points(&record, points);
    if forms < k || whats < k {
        return Err(Refusal::ShortStore);
    }
    Ok(())
}

// The statements of a function, over types that pass, into arrays of zeros; their numbers still stand in the record, as marks. A refusal leaves
// zeros in all that was lent.
fn marked_statements<'a>(
    types: &Types<'a>,
    fun: &'a [u32],
    forms: &mut [u16],
    whats: &mut [u16],
    out: &mut [u32],
) -> Result<Counts, Refusal>
    requires all_zero { AllZero forms.old whats.old out.old }
    ensures { Marked types.now.words.now fun.now forms.old whats.old out.old forms.new whats.new out.new result }
{
    let mut points = [0u32; 256];
    checked(types.words, fun, &mut points, forms.len(), whats.len())?;
    let types = *types;
    let record = Record { words: fun };
    let function = Function { types, record };
    let g = match analyse(&function, &points, forms, whats, out) {
        Ok(o) => finish(out, o),
        Err(e) => {
            out.fill(0);
            Err(e)
        }
    };
    if g.is_err() {
        forms.fill(0);
        whats.fill(0);
    }
    g
}

// The same without the numbers.
pub fn function_statements(
    types: &Types,
    fun: &[u32],
    forms: &mut [u16],
    whats: &mut [u16],
    out: &mut [u32],
) -> Result<Counts, Refusal>
    requires all_zero { AllZero forms.old whats.old out.old }
    ensures whole { Whole types.now.words.now fun.now forms.old whats.old out.old forms.new whats.new out.new result }
    ensures replayed { OnOk result (Replayed types.now.words.now fun.now out.new) }
    ensures numbered { IfErr result (λ e. OneOf whole_numbers (number e)) }
{
    let g = marked_statements(types, fun, forms, whats, out)?;
    unmark(out);
    Ok(g)
}

// `add_ghost_statements`: the statements of a function, and beside them the number of each: for an unfold from a use how many elements its
// walk had passed before the step that first opened a node, for a fold from a use 0, and 255 for what is collected. A refusal leaves zeros
// in all that was lent.
pub fn ghost_statements(
    types: &[u32],
    fun: &[u32],
    forms: &mut [u16],
    whats: &mut [u16],
    out: &mut [u32],
    told: &mut [u32],
) -> Result<Counts, Refusal>
    ensures whole_told { WholeTold types.now fun.now forms.old whats.old out.old told.old forms.new whats.new out.new told.new result }
    ensures replayed { OnOk result (Replayed types.now fun.now out.new) }
    ensures began { OnOk result (Numbered types.now fun.now out.new told.new) }
    ensures small { (i : ℕ) → number_ok (word told.new i) ≡ true }
    ensures numbered { IfErr result (λ e. OneOf whole_numbers (number e)) }
{
    let mut offs = [0u32; 4096];
    forms.fill(0);
    whats.fill(0);
    out.fill(0);
    told.fill(0);
    if !check_types(types, &mut offs) {
        return Err(Refusal::BadTypes);
    }
    let types = Types {
        words: types,
        offs: &offs,
    };
    let g = marked_statements(&types, fun, forms, whats, out)?;
    let room = told.len();
    if room < g.statements {
        forms.fill(0);
        whats.fill(0);
        out.fill(0);
        return Err(Refusal::ShortStore);
    }
    tell_numbers(out, told);
    unmark(out);
    Ok(g)
}
