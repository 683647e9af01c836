// The numbers beside a statement record (document 02, F-4). Until it is finished each stands in the arg of its statement's verb, as a mark.
ghost use Rattle.std.specs.Prelude.{◌≡◌, [], ◌∷◌, ◌+◌, ◌<◌, length, set};
ghost use Rattle.std.proofs.lemmas.List.Edits.{sets};
ghost use Rattle.model.specs.Words.{word};
ghost use Rattle.records.specs.Entries.{entries_of};
ghost use Rattle.statements.specs.Marked.{Held, number_of, told_in, unmarked, without_marks};

use crate::FOLD;

// The number of a statement that is collected: `-`.
pub const DASH: u32 = 255;

// The number that a mark stands for.
#[tactic(auto, unfolding(crate::specs::Marked::number_of))]
fn number_of(mark: u32) -> u32
    ensures { result ≡ number_of mark }
{
    if mark == 0 { DASH } else { mark - 1 }
}

// A verb's number is put at j, if there is room; where the next one goes.
#[tactic(auto, using(crate::proofs::Marks::verb_tells, crate::proofs::Marks::other_tells))]
fn tell_one(told: &mut [u32], j: usize, op: u32, mark: u32) -> usize
    requires { j + 1 < 18446744073709551616 }
    ensures told_after { told.new ≡ sets told.old j (told_in ((op, mark) ∷ [])) }
    ensures next { result ≡ j + length (told_in ((op, mark) ∷ [])) }
{
    if op < FOLD {
        return j;
    }
    if j < told.len() {
        told[j] = number_of(mark);
    }
    j + 1
}

// How many entries the words say there are.
fn entry_count(out: &[u32]) -> usize
    ensures { result ≡ word out.now 1 }
{
    out.get(1).copied().unwrap_or(0) as usize
}

// The numbers of a record's statements, as far as there is room for them.
pub fn tell_numbers(out: &[u32], told: &mut [u32])
    requires { Held out.now }
    ensures { told.new ≡ sets told.old 0 (told_in (entries_of out.now)) }
{
    let e = entry_count(out);
    let mut j = 0;
    for k in 0..e {
        j = tell_one(told, j, out[2 + k], out[2 + e + k]);
    }
}

// The mark of entry k of e is taken out, if it is a verb's.
#[tactic(auto, using(crate::proofs::Marks::set_taken, crate::proofs::Marks::set_kept))]
fn unmark_at(out: &mut [u32], e: usize, k: usize)
    requires k_lt_e { k < e }
    requires k_in_bounds { 2 + e + k < length out.old }
    ensures { out.new ≡ set out.old (2 + e + k) (unmarked (word out.old (2 + k), word out.old (2 + e + k))) }
{
    if FOLD <= out[2 + k] {
        out[2 + e + k] = 0;
    }
}

// The marks are taken out.
pub fn unmark(out: &mut [u32])
    requires { Held out.old }
    ensures { out.new ≡ without_marks out.old }
{
    let e = entry_count(out);
    for k in 0..e {
        unmark_at(out, e, k);
    }
}
