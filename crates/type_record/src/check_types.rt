// Refusal 1: does a type record keep its layout?
ghost use Rattle.std.specs.Prelude.{◌≡◌, true, ◌<◌, ◌≤◌, length, drop};
ghost use Rattle.model.specs.Words.{all};
ghost use Rattle.model.specs.Types.{ntypes, count, type_sizes, counts_add, field_ok, fields_ok, pointee_ok, variant_ok, variants_ok, type_ok, all_types_ok, types_ok};
ghost use Rattle.base.specs.Typed.{Variant};
ghost use Rattle.type_record.specs.Sizes.{Sized, Offsets, Fills};
ghost use Rattle.type_record.specs.Fresh.{value_fresh};

use crate::kinds::Kind;
use crate::record::{Listed, count_of, kind_at};

pub const MOST_TYPES: usize = 4096;

pub const MOST_PARTS: usize = 16384;

#[tactic(auto, unfolding(model::specs::Types::type_sizes))]
fn type_sizes(types: &[u32]) -> bool
    ensures { result ≡ type_sizes types.now }
{
    if types.len() < 2 {
        return false;
    }
    let t = types[0] as usize;
    let p = types[1] as usize;
    1 <= t && t <= MOST_TYPES && p <= MOST_PARTS && types.len() == 2 + t + t + p
}

// The offset of each type's parts; false if the counts do not add up to P.
fn fill_offsets(types: &[u32], offs: &mut [u32]) -> bool
    requires sized { Sized types.now }
    requires in_bounds { 4096 ≤ length offs.old }
    ensures counts { result ≡ counts_add types.now }
    ensures filled { Fills types.now offs.new result }
    ensures rest { drop (ntypes types.now) offs.new ≡ drop (ntypes types.now) offs.old }
{
    let n = types[0] as usize;
    let p = types[1];
    let mut sum: u32 = 0;
    for t in 0..n {
        offs[t] = sum;
        let c = types[2 + n + t];
        if p - sum < c {
            return false;
        }
        sum += c;
    }
    sum == p
}

#[tactic(auto, unfolding(model::specs::Types::field_ok))]
fn field_ok(types: &Listed, t: usize, j: usize) -> bool
    requires t_bound { t < ntypes types.now.words.now }
    requires j_bound { j < count types.now.words.now t }
    ensures { result ≡ field_ok types.now.words.now t j }
{
    let field = types.part_at(t, j);
    field < t && kind_at(types.words, field) != Kind::Variant
}

// The fields of t from part j on.
#[tactic(auto, unfolding(model::specs::Types::fields_ok))]
fn fields_ok(types: &Listed, t: usize, first: usize) -> bool
    requires t_bound { t < ntypes types.now.words.now }
    ensures { result ≡ fields_ok types.now.words.now t first }
{
    for j in first..count_of(types.words, t) {
        if !field_ok(types, t, j) {
            return false;
        }
    }
    true
}

#[tactic(auto, unfolding(model::specs::Types::pointee_ok))]
fn pointee_ok(types: &Listed, t: usize) -> bool
    requires t_bound { t < ntypes types.now.words.now }
    ensures { result ≡ pointee_ok types.now.words.now t }
{
    if count_of(types.words, t) != 1 {
        return false;
    }
    let pointee = types.part_at(t, 0);
    pointee < types.words[0] as usize && kind_at(types.words, pointee) != Kind::Variant
}

// No variant before j has the discriminant of variant j.
fn value_fresh(types: &Listed, t: usize, j: usize) -> bool
    requires t_bound { t < ntypes types.now.words.now }
    requires t_value { all (type_ok types.now.words.now) t ≡ true }
    requires j_bound { j < count types.now.words.now t }
    requires j_value { all (variant_ok types.now.words.now t) j ≡ true }
    requires variant { Variant types.now.words.now t j }
    ensures { result ≡ value_fresh types.now.words.now t j }
{
    let d = types.discriminant(t, j);
    for i in 0..j {
        if types.discriminant(t, i) == d {
            return false;
        }
    }
    true
}

#[tactic(auto, unfolding(model::specs::Types::variant_ok))]
fn variant_ok(types: &Listed, t: usize, j: usize) -> bool
    requires t_bound { t < ntypes types.now.words.now }
    requires t_value { all (type_ok types.now.words.now) t ≡ true }
    requires j_bound { j < count types.now.words.now t }
    requires j_value { all (variant_ok types.now.words.now t) j ≡ true }
    ensures { result ≡ variant_ok types.now.words.now t j }
{
    let variant = types.part_at(t, j);
    if t <= variant {
        return false;
    }
    kind_at(types.words, variant) == Kind::Variant && value_fresh(types, t, j)
}

#[tactic(auto, using(crate::proofs::Turns::turns), unfolding(model::specs::Types::variants_ok))]
fn variants_ok(types: &Listed, t: usize) -> bool
    requires t_bound { t < ntypes types.now.words.now }
    requires t_value { all (type_ok types.now.words.now) t ≡ true }
    ensures { result ≡ variants_ok types.now.words.now t }
{
    for j in 0..count_of(types.words, t) {
        if !variant_ok(types, t, j) {
            return false;
        }
    }
    true
}

fn type_ok(types: &Listed, t: usize) -> bool
    requires t_bound { t < ntypes types.now.words.now }
    requires t_value { all (type_ok types.now.words.now) t ≡ true }
    ensures { result ≡ type_ok types.now.words.now t }
{
    match kind_at(types.words, t) {
        Kind::Opaque | Kind::Array => count_of(types.words, t) == 0,
        Kind::Pointer | Kind::Reference | Kind::Box => pointee_ok(types, t),
        Kind::Tuple | Kind::Struct | Kind::Closure | Kind::Coroutine => { fields_ok(types, t, 0) }
        Kind::Enum => variants_ok(types, t),
        Kind::Variant => 1 <= count_of(types.words, t) && fields_ok(types, t, 1),
        Kind::Other => false,
    }
}

#[tactic(auto, using(crate::proofs::Turns::turns), unfolding(model::specs::Types::all_types_ok))]
fn all_types_ok(types: &Listed) -> bool
    ensures { result ≡ all_types_ok types.now.words.now }
{
    for t in 0..types.words[0] as usize {
        if !type_ok(types, t) {
            return false;
        }
    }
    true
}

// The type record passes; offs then has the offset of each type's parts.
pub fn check_types(types: &[u32], offs: &mut [u32]) -> bool
    requires { 4096 ≤ length offs.old }
    ensures answer { result ≡ types_ok types.now }
    ensures filled { result ≡ true → Offsets types.now offs.new }
    ensures rest { drop (ntypes types.now) offs.new ≡ drop (ntypes types.now) offs.old }
{
    if !type_sizes(types) {
        return false;
    }
    fill_offsets(types, offs) && all_types_ok(&Listed { words: types, offs })
}
