// A whole crate in one call: the statements of up to 64 functions over one type record.
#![tactic(auto)]

ghost use Rattle.std.specs.Prelude.{◌-◌, ◌≤◌, length, take, drop, OnOk};
ghost use Rattle.model.specs.Words.{word};
ghost use Rattle.model.specs.Crate.{records};
ghost use Rattle.model.specs.Replay.{ReplayedEach};
ghost use Rattle.fold_unfold.specs.Answers.{AllZero};
ghost use Rattle.whole_crate.specs.Called.{Called, Goes, Numbered, Counted, Ended, Begun, BlankFrom, Alone};

use fold_unfold::function_statements;
use mir::split::record_end;
use refusal::Refusal;
use statements::Counts;
use type_record::check_types::check_types;
use type_record::types::Types;

pub const MOST_FUNCTIONS: u32 = 64;

// A refusal, and the position of the function that is refused, counted from 1; 0 for the crate itself.
#[derive(Clone, Copy)]
pub struct CrateRefusal {
    pub refusal: Refusal,
    pub position: u32,
}

// The end of the last of n records behind the count.
fn records_end(words: &[u32], n: u32) -> usize
    requires { 1 ≤ length words.now }
    ensures { Ended words.now n result }
{
    let mut at = 1;
    for _ in 0..n {
        at = record_end(words, at);
    }
    at
}

// What is refused at position 0: the count, the types, words after the last record. offs then has the offsets of the parts.
fn begun(types: &[u32], words: &[u32], offs: &mut [u32]) -> Result<(), Refusal>
    requires { 4096 ≤ length offs.old }
    ensures { Begun types.now words.now offs.new result }
{
    if words.len() == 0 || MOST_FUNCTIONS < words[0] {
        return Err(Refusal::BadFunction);
    }
    if !check_types(types, offs) {
        return Err(Refusal::BadTypes);
    }
    let end = records_end(words, words[0]);
    if end < words.len() {
        return Err(Refusal::BadFunction);
    }
    Ok(())
}

// The function whose record is the words from `at` to `end`, its statement record from word `used` of out on, where there are zeros.
fn one(
    types: &Types,
    words: &[u32],
    at: usize,
    end: usize,
    forms: &mut [u16],
    whats: &mut [u16],
    out: &mut [u32],
    used: usize,
) -> Result<Counts, Refusal>
    requires at_le_end { at ≤ end }
    requires end_in_bounds { end ≤ length words.now }
    requires blank_from { BlankFrom out.old used }
    ensures { Alone types.now.words.now (take (end - at) (drop at words.now)) forms.old whats.old out.old used forms.new whats.new out.new result }
{
    forms.fill(0);
    whats.fill(0);
    let n = out.len();
    function_statements(types, &words[at..end], forms, whats, &mut out[used..n])
}

// All functions, in order, until one is refused.
fn each(
    types: &Types,
    words: &[u32],
    forms: &mut [u16],
    whats: &mut [u16],
    out: &mut [u32],
) -> Result<(), CrateRefusal>
    requires counted { Counted words.now }
    requires all_zero { AllZero forms.old whats.old out.old }
    ensures { Goes types.now.words.now words.now forms.old whats.old out.old forms.new whats.new out.new result }
{
    let mut at = 1;
    let mut used = 0;
    for k in 0..words[0] {
        let end = record_end(words, at);
        match one(types, words, at, end, forms, whats, out, used) {
            Ok(g) => used += 2 + 2 * g.entries,
            Err(refusal) => {
                out.fill(0);
                return Err(CrateRefusal {
                    refusal,
                    position: k + 1,
                });
            }
        }
        at = end;
    }
    Ok(())
}

// The statements of each function, their records one after another. words: the count, then the function records one after another. A
// refusal leaves zeros in all that was lent.
pub fn crate_statements(
    types: &[u32],
    words: &[u32],
    forms: &mut [u16],
    whats: &mut [u16],
    out: &mut [u32],
) -> Result<(), CrateRefusal>
    ensures called { Called types.now words.now forms.old whats.old out.old forms.new whats.new out.new result }
    ensures replayed { OnOk result (ReplayedEach types.now (records (word words.now 0) (drop 1 words.now)) out.new) }
    ensures numbered { Numbered words.now result }
{
    let mut offs = [0u32; 4096];
    forms.fill(0);
    whats.fill(0);
    out.fill(0);
    match begun(types, words, &mut offs) {
        Ok(()) => {
            let types = Types {
                words: types,
                offs: &offs,
            };
            each(&types, words, forms, whats, out)
        }
        Err(refusal) => Err(CrateRefusal {
            refusal,
            position: 0,
        }),
    }
}
