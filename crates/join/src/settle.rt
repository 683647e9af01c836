// A tree that meets a folded one: what is left of it is written to a second place.
ghost use Rattle.std.specs.Prelude.{◌<◌};
ghost use Rattle.model.specs.Types.{ntypes};
ghost use Rattle.records.specs.Here.{Here, Heres};
ghost use Rattle.state.specs.Kids.{KidsIn, kid_types};
ghost use Rattle.join.specs.Ends.{Room, arrays, Settled, SettledAll};

use crate::ends::{Ends, Marks, stays};
use state::kids::{Kids, first_kid, kids_of, rest_of_kids};
use state::nodes::node_end;
use type_record::types::Types;

// Joins the tree of type t at i with a folded one, unless there is no room. changed: some node of it was folded.
#[tactic(auto, using(crate::proofs::Settles::settle_over, state::proofs::Fields::ready_sized))]
#[cycle(settle_fields_settle_node)]
pub fn settle_node<'a>(
    types: &Types,
    forms: &'a [u16],
    whats: &'a [u16],
    i: usize,
    t: usize,
    m: bool,
    of: &mut [u16],
    ow: &mut [u16],
    k: usize,
) -> Option<Ends>
    requires t_bound { t < ntypes types.now.words.now }
    requires here { Here types.now.words.now forms.now whats.now i t }
    requires room { Room of.old ow.old k }
    ensures { Settled types.now.words.now (arrays of.old ow.old) (arrays of.new ow.new) k (arrays forms.now whats.now) i t m result }
{
    if 512 <= k {
        return None;
    }
    let f = forms[i];
    let kind = types.kind_at(t);
    if stays(f, m, kind) {
        let w = whats[i];
        of[k] = f;
        ow[k] = w;
        let ks = kids_of(types, t, w);
        return settle_fields(types, forms, whats, i + 1, ks, kind.below(m), of, ow, k + 1);
    }
    of[k] = 0;
    ow[k] = 0;
    let to = Marks {
        first: node_end(types, forms, whats, i, t),
        second: 0,
        out: k + 1,
    };
    Some(Ends {
        to,
        changed: f != 0,
    })
}

#[cycle(settle_fields_settle_node)]
fn settle_fields<'a>(
    types: &Types,
    forms: &'a [u16],
    whats: &'a [u16],
    i: usize,
    ks: Kids,
    m: bool,
    of: &mut [u16],
    ow: &mut [u16],
    k: usize,
) -> Option<Ends>
    requires kids_in { KidsIn types.now.words.now ks }
    requires heres { Heres types.now.words.now forms.now whats.now i (kid_types types.now.words.now ks) }
    requires room { Room of.old ow.old k }
    ensures { SettledAll types.now.words.now (arrays of.old ow.old) (arrays of.new ow.new) k (arrays forms.now whats.now) i (kid_types types.now.words.now ks) m result }
{
    if ks.count == 0 {
        let to = Marks {
            first: i,
            second: 0,
            out: k,
        };
        return Some(Ends { to, changed: false });
    }
    let t = first_kid(types, ks);
    let a = settle_node(types, forms, whats, i, t, m, of, ow, k)?;
    let b = settle_fields(
        types,
        forms,
        whats,
        a.to.first,
        rest_of_kids(ks),
        m,
        of,
        ow,
        a.to.out,
    )?;
    Some(Ends {
        to: b.to,
        changed: a.changed || b.changed,
    })
}
