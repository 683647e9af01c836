// The checks of records: refusals 1, 2 and 4, and join points.
ghost use Rattle.std.specs.Prelude.{◌≡◌, true, OnOk};
ghost use Rattle.model.specs.Types.{types_ok};

use crate::answers::print_answer;
use crate::lists::split_list;
use blocks::join_points::fill_join_points;
use blocks::place::places_ok;
use mir::check_function::check_function;
use mir::function::Record;
use refusal::Refusal;
use stream::print_words;
use type_record::check_types::check_types;

fn types_checked(types: &[u32]) -> Result<(), Refusal>
    ensures { OnOk result (types_ok types.now ≡ true) }
{
    let mut offs = [0u32; 4096];
    if !check_types(types, &mut offs) {
        return Err(Refusal::BadTypes);
    }
    Ok(())
}

// A type record.
pub fn types(rt: &impl Print, words: &[u32]) {
    print_answer(rt, types_checked(words), |()| ());
}

// The numbers of the join points' shares.
fn joins(types: &[u32], fun: &[u32]) -> Result<[u32; 256], Refusal> {
    types_checked(types)?;
    if !check_function(types, fun) {
        return Err(Refusal::BadFunction);
    }
    let record = Record { words: fun };
    if !places_ok(&record) {
        return Err(Refusal::BadPlace);
    }
    let mut points = [0u32; 256];
    fill_join_points(&record, &mut points);
    Ok(points)
}

// Both records.
pub fn function(rt: &impl Print, words: &[u32]) {
    let (types, rest) = split_list(words);
    let (fun, _) = split_list(rest);
    print_answer(rt, joins(types, fun), |points| print_words(rt, &points));
}
