// The calls for programs in Rust and C, as a static library: the whole-function call, a whole crate in one call, what `ghosts` prints of a
// text, the items of a list of statements, and two type records that become one.
#![tactic(auto)]

ghost use Rattle.std.specs.Prelude.{◌≡◌, ◌≢◌, true, ◌∷◌, ℕ, length, take, drop};
ghost use Rattle.model.specs.Words.{word};
ghost use Rattle.model.specs.Crate.{records};
ghost use Rattle.model.specs.Replay.{Replayed, ReplayedEach};
ghost use Rattle.model.specs.Told.{number_ok, Numbered};
ghost use Rattle.model.specs.Merge.{record_in, Passes, Links};
ghost use Rattle.model.specs.Promised.{OneOf, whole_numbers, statement_numbers, merge_numbers, Answered};
ghost use Rattle.model.specs.Ghosts.{ghosts};
ghost use Rattle.refusal.specs.Refusal.{code};
ghost use Rattle.answer.specs.Said.{Printed};
ghost use Rattle.exports.specs.Answers.{Exported, ExportedItems, ExportedMerged, ExportedCrate, RefusalIn};

use assign::statement_items;
use fold_unfold::ghost_statements;
use merge::merge_types;
use refusal::Refusal;
use whole_crate::crate_statements;

// 0, or the refusal's number.
fn code<T: Drop>(r: Result<T, Refusal>) -> u32
    ensures { result ≡ code r }
{
    match r {
        Ok(_) => 0,
        Err(e) => u32::from(e),
    }
}

// 0, or the refusal. Accepted: the counts of statements and entries are the first two words of out, and told has a number for each statement. A
// refusal leaves zeros in all that was lent.
#[tactic(auto, using(crate::proofs::Answered::exported, crate::proofs::Answered::code_one, crate::proofs::Answered::code_ok, crate::proofs::Answered::one_more), unfolding(model::specs::Rounds::elem))]
#[unsafe(no_mangle)]
pub extern "C" fn exports_ghost_statements(
    types: &[u32],
    fun: &[u32],
    forms: &mut [u16],
    whats: &mut [u16],
    out: &mut [u32],
    told: &mut [u32],
) -> u32
    ensures exported { Exported types.now fun.now forms.old whats.old out.old told.old forms.new whats.new out.new told.new result }
    ensures replayed { result ≡ 0 → Replayed types.now fun.now out.new }
    ensures began { result ≡ 0 → Numbered types.now fun.now out.new told.new }
    ensures small { (i : ℕ) → number_ok (word told.new i) ≡ true }
    ensures numbered { OneOf (0 ∷ whole_numbers) result }
{
    code(ghost_statements(types, fun, forms, whats, out, told))
}

// 0, or the refusal's number and 256 times the function's position. Accepted: the statement records of the functions one after another.
// words: their count, and their records one after another. A refusal leaves zeros in all that was lent.
#[unsafe(no_mangle)]
pub extern "C" fn exports_crate_statements(
    types: &[u32],
    words: &[u32],
    forms: &mut [u16],
    whats: &mut [u16],
    out: &mut [u32],
) -> u32
    ensures exported_crate { ExportedCrate types.now words.now forms.old whats.old out.old forms.new whats.new out.new result }
    ensures replayed { result ≡ 0 → ReplayedEach types.now (records (word words.now 0) (drop 1 words.now)) out.new }
    ensures numbered { result ≢ 0 → RefusalIn words.now result }
{
    match crate_statements(types, words, forms, whats, out) {
        Ok(()) => 0,
        Err(e) => u32::from(e.refusal) + 256 * e.position,
    }
}

// What `ghosts` prints of a text: so many bytes of text, and zeros behind them.
#[unsafe(no_mangle)]
pub extern "C" fn exports_ghosts(bytes: &[u8], text: &mut [u8; 14336]) -> usize
    ensures printed { Printed (length text.old) (ghosts bytes.now) result text.new }
    ensures answered { Answered (take result text.new) }
{
    answer::ghosts(bytes, text)
}

// The items that a list of statements gives: 0, or the refusal. Accepted: count, op[], arg[], then zeros. A refusal leaves zeros.
#[tactic(auto, using(crate::proofs::Answered::exported_items, crate::proofs::Answered::code_one, crate::proofs::Answered::one_more), unfolding(model::specs::Rounds::elem))]
#[unsafe(no_mangle)]
pub extern "C" fn exports_statement_items(list: &[u32], out: &mut [u32]) -> u32
    ensures exported_items { ExportedItems list.now (length out.old) out.new result }
    ensures numbered { OneOf (0 ∷ statement_numbers) result }
{
    code(statement_items(list, out))
}

// Two type records as one: 0, or the refusal. Accepted: the merged record, then zeros; its sizes are its first two words. A refusal leaves zeros.
#[tactic(auto, using(crate::proofs::Answered::exported_merged, crate::proofs::Answered::code_one, crate::proofs::Answered::code_ok, crate::proofs::Answered::one_more), unfolding(model::specs::Rounds::elem))]
#[unsafe(no_mangle)]
pub extern "C" fn exports_merge_types(first: &[u32], second: &[u32], out: &mut [u32]) -> u32
    ensures exported_merged { ExportedMerged first.now second.now (length out.old) out.new result }
    ensures numbered { OneOf (0 ∷ merge_numbers) result }
    ensures passes { result ≡ 0 → Passes out.new }
    ensures links { result ≡ 0 → Links first.now second.now (record_in out.new) }
{
    code(merge_types(first, second, out))
}
