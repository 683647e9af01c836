// The children of an open node, as parts of a type.
ghost use Rattle.std.specs.Prelude.{◌≡◌, ◌<◌};
ghost use Rattle.model.specs.Types.{ntypes};
ghost use Rattle.model.specs.Typing.{Openable};
ghost use Rattle.state.specs.Kids.{KidsIn, KidsOf, SomeKids, FirstKid, rest_kids};

use type_record::types::Types;

// The children of an open node of type t at variant w: `count` parts of `owner` from part `first` on.
#[derive(Clone, Copy)]
pub struct Kids {
    pub owner: usize,
    pub first: usize,
    pub count: usize,
}

#[tactic(auto, using(crate::proofs::Fields::ready_sized, crate::proofs::Fields::ready_counted))]
pub fn kids_of(types: &Types, t: usize, w: u16) -> Kids
    requires t_bound { t < ntypes types.now.words.now }
    requires openable { Openable types.now.words.now t w }
    ensures { KidsOf types.now.words.now t w result }
{
    let owner = types.owner_of(t, usize::from(w));
    let first = types.first_of(t);
    Kids {
        owner,
        first,
        count: types.count_of(owner) - first,
    }
}

// The type of the first child.
#[tactic(auto, using(crate::proofs::Fields::ready_counted))]
pub fn first_kid(types: &Types, ks: Kids) -> usize
    requires kids_in { KidsIn types.now.words.now ks }
    requires count_nonzero { 0 < ks.count }
    ensures { FirstKid types.now.words.now ks result }
{
    types.part_at(ks.owner, ks.first)
}

// The children behind the first.
pub fn rest_of_kids(ks: Kids) -> Kids
    requires { SomeKids ks }
    ensures { result ≡ rest_kids ks }
{
    Kids {
        owner: ks.owner,
        first: ks.first + 1,
        count: ks.count - 1,
    }
}
