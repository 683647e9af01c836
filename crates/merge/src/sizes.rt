// The sizes of the merged record.
ghost use Rattle.std.specs.Prelude.{◌≡◌, true, ◌+◌, ◌<◌, length};
ghost use Rattle.model.specs.Words.{word};
ghost use Rattle.model.specs.Types.{types_ok};
ghost use Rattle.model.specs.Merge.{merged, sums_ok};

use type_record::check_types::{MOST_PARTS, MOST_TYPES};

// A size of both: of the types, word 0, or of the parts, word 1.
#[tactic(auto, using(crate::proofs::Sized::two_words))]
pub fn both(first: &[u32], second: &[u32], i: usize) -> usize
    requires first_value { types_ok first.now ≡ true }
    requires second_value { types_ok second.now ≡ true }
    requires i_bound { i < 2 }
    ensures { result ≡ word first.now i + word second.now i }
{
    first[i] as usize + second[i] as usize
}

// The sums of types and of parts keep their limits.
#[tactic(auto, using(crate::proofs::Sized::many, crate::proofs::Sized::few))]
pub fn sums_ok(first: &[u32], second: &[u32]) -> bool
    requires first_value { types_ok first.now ≡ true }
    requires second_value { types_ok second.now ≡ true }
    ensures { result ≡ sums_ok first.now second.now }
{
    both(first, second, 0) <= MOST_TYPES && both(first, second, 1) <= MOST_PARTS
}

// How long the merged record is.
#[tactic(auto, using(crate::proofs::Sized::types_few, crate::proofs::Sized::parts_few, crate::proofs::Sized::merged_words))]
pub fn merged_length(first: &[u32], second: &[u32]) -> usize
    requires first_value { types_ok first.now ≡ true }
    requires second_value { types_ok second.now ≡ true }
    ensures { result ≡ length (merged first.now second.now) }
{
    let t = both(first, second, 0);
    let p = both(first, second, 1);
    2 + t + t + p
}
