// Trees in two arrays of forms and variants: where they end.
ghost use Rattle.std.specs.Prelude.{◌≡◌, true, ◌+◌, ◌<◌, ◌≤◌, length};
ghost use Rattle.model.specs.Types.{ntypes, parts};
ghost use Rattle.model.specs.State.{locals_ok};
ghost use Rattle.records.specs.Here.{Here, Heres};
ghost use Rattle.state.specs.Found.{Fields, Ends, EndsAll, LocalAt};

use type_record::types::Types;

// A state: form and variant of each node, in preorder, local after local. Every entry past the node count is zero.
#[derive(Clone, Copy)]
pub struct State {
    pub forms: [u16; 512],
    pub whats: [u16; 512],
    pub nodes: usize,
}

// The index just past the tree of type t that starts at i.
#[cycle(fields_end_node_end)]
#[tactic(auto, using(crate::proofs::Fields::ready_sized, crate::proofs::Fields::ready_counted))]
pub fn node_end<'a>(types: &Types, forms: &'a [u16], whats: &'a [u16], i: usize, t: usize) -> usize
    requires t_bound { t < ntypes types.now.words.now }
    requires here { Here types.now.words.now forms.now whats.now i t }
    ensures { Ends types.now.words.now forms.now whats.now i t result }
{
    if forms[i] == 0 {
        i + 1
    } else {
        let u = types.owner_of(t, usize::from(whats[i]));
        let j = types.first_of(t);
        let n = types.count_of(u) - j;
        fields_end(types, forms, whats, i + 1, u, j, n)
    }
}

// The index just past the n trees that start at i, at the parts of u from part j on.
#[cycle(fields_end_node_end)]
#[tactic(auto, using(crate::proofs::Fields::ready_counted))]
pub fn fields_end<'a>(
    types: &Types,
    forms: &'a [u16],
    whats: &'a [u16],
    i: usize,
    u: usize,
    j: usize,
    n: usize,
) -> usize
    requires fields { Fields types.now.words.now u j n }
    requires heres { Heres types.now.words.now forms.now whats.now i (parts types.now.words.now u j n) }
    ensures { EndsAll types.now.words.now forms.now whats.now i (parts types.now.words.now u j n) result }
{
    let mut e = i;
    for k in 0..n {
        if forms[e] == 0 {
            e += 1;
        } else {
            let t = types.part_at(u, j + k);
            e = node_end(types, forms, whats, e, t);
        }
    }
    e
}

// The index of the tree of local l.
pub fn local_at<'a>(
    types: &Types,
    forms: &'a [u16],
    whats: &'a [u16],
    locals: &[u32],
    l: usize,
) -> usize
    requires locals_value { locals_ok types.now.words.now locals.now ≡ true }
    requires l_in_bounds { l ≤ length locals.now }
    requires heres { Heres types.now.words.now forms.now whats.now 0 locals.now }
    ensures { LocalAt types.now.words.now forms.now whats.now locals.now l result }
{
    let mut i = 0;
    for t in &locals[..l] {
        i = node_end(types, forms, whats, i, *t as usize);
    }
    i
}
