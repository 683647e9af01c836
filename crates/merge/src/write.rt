// The merged record, written from the front: sizes; kinds, counts and parts, each of both.
ghost use Rattle.std.specs.Prelude.{◌≡◌, true, ◌&&◌, [], ◌∷◌, ◌+◌, ◌≤◌, ◌<◌, length, eqb};
ghost use Rattle.std.proofs.lemmas.List.Edits.{sets};
ghost use Rattle.model.specs.Types.{ntypes, nparts, kind, count, types_ok};
ghost use Rattle.model.specs.Merge.{moved_part, moved_parts, moved_below, heads, merged};
ghost use Rattle.records.specs.Window.{window};
ghost use Rattle.type_record.specs.Sizes.{Sized, Ready};

use crate::sizes::both;
use statements::small;
use type_record::kinds::Kind;
use type_record::record::kind_at;
use type_record::types::Types;

// n words from word i on, as they are; where the next go.
fn copy(out: &mut [u32], at: usize, words: &[u32], i: usize, n: usize) -> usize
    requires n_in_bounds { at + n ≤ length out.old }
    requires n_in_bounds_2 { i + n ≤ length words.now }
    ensures out_value { out.new ≡ sets out.old at (window words.now i n) }
    ensures next { result ≡ at + n }
{
    out[at..at + n].copy_from_slice(&words[i..i + n]);
    at + n
}

// Is part j of the type t a discriminant, and no type's number?
#[tactic(auto, using(crate::proofs::Sized::variant_first, crate::proofs::Sized::no_variant))]
fn is_value(types: &[u32], t: usize, j: usize) -> bool
    requires sized { Sized types.now }
    requires t_bound { t < ntypes types.now }
    ensures { result ≡ eqb (kind types.now t) 8 && eqb j 0 }
{
    kind_at(types, t) == Kind::Variant && j == 0
}

// Part j of the type t, moved up by n.
#[tactic(auto, using(type_record::proofs::Inside::ok_counted, crate::proofs::Sized::all_sized))]
fn moved_part(types: &Types, n: usize, t: usize, j: usize) -> u32
    requires n_bound { n ≤ 4096 }
    requires t_bound { t < ntypes types.now.words.now }
    requires j_bound { j < count types.now.words.now t }
    ensures { result ≡ moved_part n types.now.words.now t j }
{
    let p = types.word_at(t, j);
    if is_value(types.words, t, j) {
        p
    } else {
        n as u32 + p
    }
}

// The parts of the type t, moved.
#[tactic(auto, using(crate::proofs::Sized::all_sized, crate::proofs::Putting::no_parts, crate::proofs::Putting::part_one))]
fn put_parts(out: &mut [u32], at: usize, types: &Types, n: usize, t: usize) -> usize
    requires n_bound { n ≤ 4096 }
    requires t_bound { t < ntypes types.now.words.now }
    requires t_in_bounds { at + count types.now.words.now t ≤ length out.old }
    ensures out_value { out.new ≡ sets out.old at (moved_parts n types.now.words.now t (count types.now.words.now t)) }
    ensures next { result ≡ at + count types.now.words.now t }
{
    let c = types.count_of(t);
    for j in 0..c {
        out[at + j] = moved_part(types, n, t, j);
    }
    at + c
}

// The parts of all types, moved.
#[tactic(auto, using(crate::proofs::Sized::words_in, crate::proofs::Putting::no_types, crate::proofs::Putting::type_one, crate::proofs::Putting::offset_none, crate::proofs::Putting::offset_one))]
fn put_types(out: &mut [u32], at: usize, types: &Types, n: usize)
    requires n_bound { n ≤ 4096 }
    requires types_in_bounds { at + nparts types.now.words.now ≤ length out.old }
    ensures { out.new ≡ sets out.old at (moved_below n types.now.words.now (ntypes types.now.words.now)) }
{
    let mut q = at;
    for t in 0..types.words[0] as usize {
        q = put_parts(out, q, types, n, t);
    }
}

// Kinds and counts of both, behind the sizes; where the parts go.
#[tactic(auto, using(crate::proofs::Sized::words_in, crate::proofs::Sized::heads_words))]
fn put_heads(out: &mut [u32], first: &[u32], second: &[u32]) -> usize
    requires first_value { types_ok first.now ≡ true }
    requires second_value { types_ok second.now ≡ true }
    requires second_in_bounds { 2 + length (heads first.now second.now) ≤ length out.old }
    ensures out_value { out.new ≡ sets out.old 2 (heads first.now second.now) }
    ensures next { result ≡ 2 + length (heads first.now second.now) }
{
    let a = first[0] as usize;
    let b = second[0] as usize;
    let i = copy(out, 2, first, 2, a);
    let j = copy(out, i, second, 2, b);
    let k = copy(out, j, first, 2 + a, a);
    copy(out, k, second, 2 + b, b)
}

// The sizes: types and parts of both.
#[tactic(auto, using(crate::proofs::Sized::types_few, crate::proofs::Sized::parts_few))]
fn put_sizes(out: &mut [u32], first: &[u32], second: &[u32])
    requires first_value { types_ok first.now ≡ true }
    requires second_value { types_ok second.now ≡ true }
    requires in_bounds { 2 ≤ length out.old }
    ensures { out.new ≡ sets out.old 0 ((ntypes first.now + ntypes second.now) ∷ (nparts first.now + nparts second.now) ∷ []) }
{
    out[0] = small(both(first, second, 0));
    out[1] = small(both(first, second, 1));
}

// All of it. offs has the offsets of the second's parts.
#[tactic(auto, using(crate::proofs::Sized::words_in, crate::proofs::Sized::types_few, crate::proofs::Sized::heads_words, crate::proofs::Sized::merged_words))]
pub fn write(out: &mut [u32], first: &[u32], second: &Types)
    requires first_value { types_ok first.now ≡ true }
    requires second_in_bounds { length (merged first.now second.now.words.now) ≤ length out.old }
    ensures { out.new ≡ sets out.old 0 (merged first.now second.now.words.now) }
{
    put_sizes(out, first, second.words);
    let i = put_heads(out, first, second.words);
    let n = first[0] as usize;
    let p = first[1] as usize;
    let j = copy(out, i, first, 2 + n + n, p);
    put_types(out, j, second, n);
}
