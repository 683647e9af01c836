// A type record that passes refusal 1: what is read of it.
ghost use Rattle.std.specs.Prelude.{◌≡◌, ◌<◌, length, get_or};
ghost use Rattle.model.specs.Types.{ntypes, kind, count, part, owner, first, kids, casts, discriminant};
ghost use Rattle.type_record.specs.Sizes.{Ready, VariantOf};
ghost use Rattle.type_record.specs.Kinds.{kind_named};

use crate::kinds::Kind;
use crate::record::{Listed, casts, count_of, first_of, kind_at};

// The record, with the offset of each type's parts.
#[derive(Clone, Copy)]
pub struct Types<'a> {
    pub words: &'a [u32],
    pub offs: &'a [u32],
    pub ghost ready: { Ready words.now offs.now },
}

impl<'a> Types<'a> {
    fn listed(&self) -> Listed<'a>
        ensures { result.words.now ≡ self.now.words.now }
    {
        Listed {
            words: self.words,
            offs: self.offs,
        }
    }

    pub fn kind_at(&self, t: usize) -> Kind
        requires t_bound { t < ntypes self.now.words.now }
        ensures { result ≡ kind_named (kind self.now.words.now t) }
    {
        kind_at(self.words, t)
    }

    pub fn count_of(&self, t: usize) -> usize
        requires t_bound { t < ntypes self.now.words.now }
        ensures { result ≡ count self.now.words.now t }
    {
        count_of(self.words, t)
    }

    // Part j of the type t, as it stands.
    pub fn word_at(&self, t: usize, j: usize) -> u32
        requires t_bound { t < ntypes self.now.words.now }
        requires j_bound { j < count self.now.words.now t }
        ensures { result ≡ part self.now.words.now t j }
    {
        self.listed().word_at(t, j)
    }

    pub fn part_at(&self, t: usize, j: usize) -> usize
        requires t_bound { t < ntypes self.now.words.now }
        requires j_bound { j < count self.now.words.now t }
        ensures { result ≡ part self.now.words.now t j }
    {
        self.listed().part_at(t, j)
    }

    // The discriminant of variant v of the enum t.
    pub fn discriminant(&self, t: usize, v: usize) -> usize
        requires t_bound { t < ntypes self.now.words.now }
        requires v_bound { v < count self.now.words.now t }
        requires v_bound_2 { part self.now.words.now t v < ntypes self.now.words.now }
        requires nonzero { 0 < count self.now.words.now (part self.now.words.now t v) }
        ensures { result ≡ discriminant self.now.words.now t v }
    {
        self.listed().discriminant(t, v)
    }

    // The type whose parts the children of an open node are.
    pub fn owner_of(&self, t: usize, v: usize) -> usize
        requires t_bound { t < ntypes self.now.words.now }
        requires variant_of { VariantOf self.now.words.now t v }
        ensures { result ≡ owner self.now.words.now t v }
    {
        self.listed().owner_of(t, v)
    }

    // The first of those parts.
    pub fn first_of(&self, t: usize) -> usize
        requires t_bound { t < ntypes self.now.words.now }
        ensures { result ≡ first self.now.words.now t }
    {
        first_of(self.words, t)
    }

    // Has the type t a variant v to downcast to?
    pub fn casts(&self, t: usize, v: usize) -> bool
        requires t_bound { t < ntypes self.now.words.now }
        ensures { result ≡ casts self.now.words.now t v }
    {
        casts(self.words, t, v)
    }

    // How many children an open node has.
    pub fn kid_count(&self, t: usize, v: usize) -> usize
        requires t_bound { t < ntypes self.now.words.now }
        requires variant_of { VariantOf self.now.words.now t v }
        ensures { result ≡ length (kids self.now.words.now t v) }
    {
        let u = self.owner_of(t, v);
        let j = self.first_of(t);
        self.count_of(u) - j
    }

    // The type of child i.
    pub fn kid_type(&self, t: usize, v: usize, i: usize) -> usize
        requires t_bound { t < ntypes self.now.words.now }
        requires variant_of { VariantOf self.now.words.now t v }
        requires i_in_bounds { i < length (kids self.now.words.now t v) }
        ensures { result ≡ get_or (kids self.now.words.now t v) i 0 }
    {
        let u = self.owner_of(t, v);
        let j = self.first_of(t);
        self.part_at(u, j + i)
    }
}
