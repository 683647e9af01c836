// The walk of a place, `Env::projection`, and a fold carried out, in a state that passes.
ghost use Rattle.std.specs.Prelude.{length};
ghost use Rattle.model.specs.Place.{Fold, spot_ok, used_ok, fold_ok};
ghost use Rattle.env.specs.Given.{Asked, AskedIn, Sited};
ghost use Rattle.env.specs.Answers.{usage, moved};
ghost use Rattle.env.specs.There.{ProjectsThere, CarriesThere, WalksThere, SubjectThere, ProjectsAt};

use refusal::Refusal;
use state::nodes::{State, local_at};
use type_record::kinds::Kind;
use type_record::types::Types;
use walk::along::{Walk, walk_along};
use walk::apply::{fold_at, open_nodes};

// A state has 512 nodes at the most.
pub const MOST_NODES: usize = 512;

// What a use of a place records: nothing, a fold of the place, an unfold of its first elements.
#[derive(Clone, Copy)]
pub enum Projected {
    Nothing,
    Fold,
    Unfold(usize),
}

// A use. passed: how many elements the walk had passed before the step that first opened a node, or all that it walked.
#[derive(Clone, Copy)]
pub struct Use {
    pub recorded: Projected,
    pub passed: usize,
}

// The answer of a use, with the state after it, which a refusal gives back as it came.
#[derive(Drop)]
pub struct Usage {
    pub answer: Result<Use, Refusal>,
    pub state: State,
}

// The answer of a call that gives a state alone, with that state.
#[derive(Drop)]
pub struct Moved {
    pub answer: Result<(), Refusal>,
    pub state: State,
}

// What a match is on: an enum, or an array's element.
#[derive(Clone, Copy)]
pub enum On {
    Enum(usize),
    Element,
}

// `Env::ensure_unfolded`: the walk of the place in its local's tree. What has to be opened on the way is found here; `open_nodes` opens it.
// Two arrays of a state, here and in `subject_at`: how many nodes they hold isn't read, so no caller is asked for it.
pub fn ensure_unfolded<'a>(
    types: &Types,
    locals: &[u32],
    forms: &'a [u16],
    whats: &'a [u16],
    ops: &[u32],
    args: &[u32],
) -> Result<Walk, Refusal>
    requires { AskedIn types.now.words.now types.now.offs.now locals.now forms.now whats.now ops.now args.now (spot_ok 64 (length locals.now)) }
    ensures { WalksThere types.now.words.now locals.now forms.now whats.now ops.now args.now result }
{
    let l = args[0] as usize;
    let i = local_at(types, forms, whats, locals, l);
    walk_along(types, forms, whats, ops, args, i, locals[l] as usize)
}

// What a match on the place is on: "a match first walks its place, for its type alone". A walk that ends before an index ends at an
// array, so the place is an element of it; any other place must be an enum.
pub fn subject_at<'a>(
    types: &Types,
    locals: &[u32],
    forms: &'a [u16],
    whats: &'a [u16],
    ops: &[u32],
    args: &[u32],
) -> Result<On, Refusal>
    requires { AskedIn types.now.words.now types.now.offs.now locals.now forms.now whats.now ops.now args.now (used_ok (length locals.now)) }
    ensures { SubjectThere types.now.words.now locals.now forms.now whats.now ops.now args.now result }
{
    let w = ensure_unfolded(types, locals, forms, whats, ops, args)?;
    let early = w.walked < ops.len();
    if early {
        return Ok(On::Element);
    }
    let t = w.fresh.typ;
    match types.kind_at(t) {
        Kind::Enum => Ok(On::Enum(t)),
        _ => Err(Refusal::WrongStep),
    }
}

// The place is used, and its walk has ended at w: what is to be recorded.
fn used_at(types: &Types, s: &mut State, w: Walk, ops: &[u32], args: &[u32]) -> Result<Use, Refusal>
    requires sited { Sited types.now.words.now s.old ops.now args.now w }
    ensures { ProjectsAt types.now.words.now s.old ops.now args.now w (usage result s.new) }
{
    let passed = w.passed - 1;
    if w.passed < w.walked {
        if MOST_NODES < s.nodes + w.fresh.added {
            return Err(Refusal::StateFull);
        }
        open_nodes(types, s, w, ops, args, None);
        return Ok(Use {
            recorded: Projected::Unfold(w.walked - 2),
            passed,
        });
    }
    let open = s.forms[w.node] != 0;
    if open {
        fold_at(types, s, w.node, w.typ);
        return Ok(Use {
            recorded: Projected::Fold,
            passed,
        });
    }
    Ok(Use {
        recorded: Projected::Nothing,
        passed,
    })
}

// A place of a fold is used.
fn used(
    types: &Types,
    locals: &[u32],
    s: &mut State,
    ops: &[u32],
    args: &[u32],
) -> Result<Use, Refusal>
    requires { Asked types.now.words.now types.now.offs.now locals.now s.old ops.now args.now (fold_ok (length locals.now)) }
    ensures { ProjectsThere types.now.words.now locals.now s.old ops.now args.now (usage result s.new) }
{
    let w = ensure_unfolded(types, locals, &s.forms, &s.whats, ops, args)?;
    used_at(types, s, w, ops, args)
}

// The place is used: what is to be recorded.
pub fn projection(
    types: &Types,
    locals: &[u32],
    s: &mut State,
    ops: &[u32],
    args: &[u32],
) -> Result<Use, Refusal>
    requires { Asked types.now.words.now types.now.offs.now locals.now s.old ops.now args.now (used_ok (length locals.now)) }
    ensures { ProjectsThere types.now.words.now locals.now s.old ops.now args.now (usage result s.new) }
{
    used(types, locals, s, ops, args)
}

// A fold carried out: the place is used, and what that records is dropped.
pub fn fold(
    types: &Types,
    locals: &[u32],
    s: &mut State,
    ops: &[u32],
    args: &[u32],
) -> Result<(), Refusal>
    requires { Asked types.now.words.now types.now.offs.now locals.now s.old ops.now args.now (fold_ok (length locals.now)) }
    ensures { CarriesThere types.now.words.now locals.now s.old ops.now args.now Fold (moved result s.new) }
{
    used(types, locals, s, ops, args)?;
    Ok(())
}
