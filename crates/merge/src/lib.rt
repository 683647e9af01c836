// Two type records become one: the types of the second move up by the first's count.
#![tactic(auto)]

ghost use Rattle.std.specs.Prelude.{length, OnOk};
ghost use Rattle.model.specs.Merge.{record_in, Passes, Links};
ghost use Rattle.merge.specs.Answers.{Gives, Numbered};

use refusal::Refusal;
use sizes::{merged_length, sums_ok};
use statements::wipe;
use type_record::check_types::check_types;
use type_record::types::Types;
use write::write;

pub mod sizes;
pub mod write;

// The merged record, and zeros behind it: its length. A refusal leaves zeros.
pub fn merge_types(first: &[u32], second: &[u32], out: &mut [u32]) -> Result<usize, Refusal>
    ensures gives { Gives first.now second.now (length out.old) out.new result }
    ensures numbered { Numbered result }
    ensures passes { OnOk result (Passes out.new) }
    ensures links { OnOk result (Links first.now second.now (record_in out.new)) }
{
    wipe(out);
    let mut offs = [0u32; 4096];
    if !check_types(first, &mut offs) || !check_types(second, &mut offs) {
        return Err(Refusal::BadTypes);
    }
    if !sums_ok(first, second) {
        return Err(Refusal::MergedTooLarge);
    }
    let n = merged_length(first, second);
    if out.len() < n {
        return Err(Refusal::ShortStore);
    }
    write(
        out,
        first,
        &Types {
            words: second,
            offs: &offs,
        },
    );
    Ok(n)
}
