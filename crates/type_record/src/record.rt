// Reading a type record: T, P; kind[T], count[T]; then P parts, in type order. offs has the offset of each type's parts.
ghost use Rattle.std.specs.Prelude.{◌≡◌, ◌<◌};
ghost use Rattle.model.specs.Types.{ntypes, kind, count, part, owner, first, casts, discriminant};
ghost use Rattle.type_record.specs.Sizes.{Sized, Counted, Offsets, VariantOf};
ghost use Rattle.type_record.specs.Kinds.{kind_named};

use crate::kinds::Kind;

pub fn kind_of(types: &[u32], t: usize) -> u32
    requires sized { Sized types.now }
    requires t_bound { t < ntypes types.now }
    ensures { result ≡ kind types.now t }
{
    types[2 + t]
}

// The kind of a type.
pub fn kind_at(types: &[u32], t: usize) -> Kind
    requires sized { Sized types.now }
    requires t_bound { t < ntypes types.now }
    ensures { result ≡ kind_named (kind types.now t) }
{
    Kind::from(kind_of(types, t))
}

#[tactic(auto, unfolding(model::specs::Types::count))]
pub fn count_of(types: &[u32], t: usize) -> usize
    requires sized { Sized types.now }
    requires t_bound { t < ntypes types.now }
    ensures { result ≡ count types.now t }
{
    let n = types[0] as usize;
    types[2 + n + t] as usize
}

// The first of those parts: behind an enum's discriminant.
pub fn first_of(types: &[u32], t: usize) -> usize
    requires sized { Sized types.now }
    requires t_bound { t < ntypes types.now }
    ensures { result ≡ first types.now t }
{
    if kind_at(types, t) == Kind::Enum {
        1
    } else {
        0
    }
}

// Has the type t a variant v to downcast to? A struct has variant 0.
#[tactic(auto, unfolding(model::specs::Types::casts))]
pub fn casts(types: &[u32], t: usize, v: usize) -> bool
    requires sized { Sized types.now }
    requires t_bound { t < ntypes types.now }
    ensures { result ≡ casts types.now t v }
{
    match kind_at(types, t) {
        Kind::Enum => v < count_of(types, t),
        Kind::Struct => v == 0,
        _ => false,
    }
}

// A type record whose sizes are right and whose counts add up, with the offset of each type's parts.
#[derive(Clone, Copy)]
pub struct Listed<'a> {
    pub words: &'a [u32],
    pub offs: &'a [u32],
    pub ghost counted: { Counted words.now },
    pub ghost offsets: { Offsets words.now offs.now },
}

impl<'a> Listed<'a> {
    // Part j of the type t, as it stands.
    #[tactic(auto, unfolding(model::specs::Types::part))]
    pub fn word_at(&self, t: usize, j: usize) -> u32
        requires t_bound { t < ntypes self.now.words.now }
        requires j_bound { j < count self.now.words.now t }
        ensures { result ≡ part self.now.words.now t j }
    {
        let n = self.words[0] as usize;
        let o = self.offs[t] as usize;
        self.words[2 + n + n + o + j]
    }

    pub fn part_at(&self, t: usize, j: usize) -> usize
        requires t_bound { t < ntypes self.now.words.now }
        requires j_bound { j < count self.now.words.now t }
        ensures { result ≡ part self.now.words.now t j }
    {
        self.word_at(t, j) as usize
    }

    // The discriminant of variant v of the enum t.
    #[tactic(auto, unfolding(model::specs::Types::discriminant))]
    pub fn discriminant(&self, t: usize, v: usize) -> usize
        requires t_bound { t < ntypes self.now.words.now }
        requires v_bound { v < count self.now.words.now t }
        requires v_bound_2 { part self.now.words.now t v < ntypes self.now.words.now }
        requires nonzero { 0 < count self.now.words.now (part self.now.words.now t v) }
        ensures { result ≡ discriminant self.now.words.now t v }
    {
        let u = self.part_at(t, v);
        self.part_at(u, 0)
    }

    // The type whose parts the children of an open node are: an enum's are its variant's.
    pub fn owner_of(&self, t: usize, v: usize) -> usize
        requires t_bound { t < ntypes self.now.words.now }
        requires variant_of { VariantOf self.now.words.now t v }
        ensures { result ≡ owner self.now.words.now t v }
    {
        if kind_at(self.words, t) == Kind::Enum {
            self.part_at(t, v)
        } else {
            t
        }
    }
}
