// Refusal 3: is a state record one of these local types?
ghost use Rattle.std.specs.Prelude.{◌≡◌, true, ◌<◌, ◌≤◌, length, drop};
ghost use Rattle.model.specs.Types.{ntypes};
ghost use Rattle.model.specs.State.{opens, zeros, decode, locals_ok};
ghost use Rattle.base.specs.Ranges.{BothLong};
ghost use Rattle.type_record.specs.Sizes.{Sized};
ghost use Rattle.mir.specs.Parts.{is_some};
ghost use Rattle.state.specs.Value.{value};
ghost use Rattle.state.specs.Kids.{KidsIn, kid_types};
ghost use Rattle.state.specs.Checked.{Checked, CheckedAll, CheckedLocals, ComeTo};

use crate::kids::{Kids, first_kid, kids_of, rest_of_kids};
use crate::nodes::State;
use type_record::kinds::Kind;
use type_record::record::{count_of, kind_at};
use type_record::types::Types;

// May a node of type t be open with this form at this variant?
fn opens(types: &[u32], t: usize, form: u16, what: u16) -> bool
    requires sized { Sized types.now }
    requires t_bound { t < ntypes types.now }
    ensures { result ≡ opens types.now t (form, what) }
{
    let k = kind_at(types, t);
    if k.shut() || k.form() != form {
        return false;
    }
    if k == Kind::Enum {
        usize::from(what) < count_of(types, t)
    } else {
        what == 0
    }
}

// Where the tree of type t at i ends, of n nodes in all, open at d levels at the most; None if there is none.
#[cycle(check_fields_check_node)]
#[tactic(auto, using(crate::proofs::Fields::ready_sized))]
fn check_node<'a>(
    types: &Types,
    forms: &'a [u16],
    whats: &'a [u16],
    n: usize,
    i: usize,
    t: usize,
    d: usize,
) -> Option<usize>
    requires t_bound { t < ntypes types.now.words.now }
    requires both_long { BothLong n forms.now whats.now }
    ensures { Checked types.now.words.now forms.now whats.now n d i t result }
{
    if n <= i {
        return None;
    }
    let f = forms[i];
    let w = whats[i];
    if f == 0 && w == 0 {
        return Some(i + 1);
    }
    if !opens(types.words, t, f, w) || d == 0 {
        return None;
    }
    let ks = kids_of(types, t, w);
    check_fields(types, forms, whats, n, i + 1, ks, d - 1)
}

// The same of the trees of a node's children.
#[cycle(check_fields_check_node)]
fn check_fields<'a>(
    types: &Types,
    forms: &'a [u16],
    whats: &'a [u16],
    n: usize,
    i: usize,
    ks: Kids,
    d: usize,
) -> Option<usize>
    requires kids_in { KidsIn types.now.words.now ks }
    requires come_to { ComeTo i n forms.now whats.now }
    ensures { CheckedAll types.now.words.now forms.now whats.now n d i (kid_types types.now.words.now ks) result }
{
    if ks.count == 0 {
        return Some(i);
    }
    let t = first_kid(types, ks);
    let e = check_node(types, forms, whats, n, i, t, d)?;
    check_fields(types, forms, whats, n, e, rest_of_kids(ks), d)
}

// Do the trees of all locals stand there, and end with the n nodes?
fn check_locals<'a>(
    types: &Types,
    forms: &'a [u16],
    whats: &'a [u16],
    n: usize,
    locals: &[u32],
) -> bool
    requires locals_value { locals_ok types.now.words.now locals.now ≡ true }
    requires both_long { BothLong n forms.now whats.now }
    ensures { CheckedLocals types.now.words.now forms.now whats.now n locals.now result }
{
    let mut i = 0;
    for t in locals {
        let Some(e) = check_node(types, forms, whats, n, i, *t as usize, 64) else {
            return false;
        };
        i = e;
    }
    i == n
}

// Every entry from n on is zero.
fn zeros_from(a: &[u16], n: usize) -> bool
    requires { n ≤ length a.now }
    ensures { result ≡ zeros (drop n a.now) }
{
    a[n..].iter().all(|x| *x == 0)
}

pub fn check_state(types: &Types, locals: &[u32], s: State) -> bool
    requires locals_value { locals_ok types.now.words.now locals.now ≡ true }
    ensures { result ≡ is_some (decode types.now.words.now locals.now (value s)) }
{
    let n = s.nodes;
    if 512 < n || !zeros_from(&s.forms, n) || !zeros_from(&s.whats, n) {
        return false;
    }
    check_locals(types, &s.forms, &s.whats, n, locals)
}
