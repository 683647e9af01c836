// Which statements there are: refusal 11.
ghost use Rattle.std.specs.Prelude.{◌≡◌, true};
ghost use Rattle.model.specs.Assign.{flag_ok, count_ok, wants_place, statements_of};
ghost use Rattle.assign.specs.Kinds.{kind_code, kind_named};
ghost use Rattle.assign.specs.Checked.{list_ok, words_known, known_in};

use crate::list::operands_end;

// The kinds of statements, as `Rvalue` of the source has them. Other: a number above 8, which names none.
#[derive(Clone, Copy, Debug, PartialEq, Eq)]
pub enum Rvalue {
    Use,
    Repeat,
    Ref,
    RawPtr,
    Cast,
    BinaryOp,
    UnaryOp,
    Discriminant,
    Aggregate,
    Other,
}

impl From<u32> for Rvalue {
    ghost from_gives = { λ n k. k ≡ kind_named n };

    #[tactic(auto, unfolding(crate::specs::Kinds::kind_named))]
    fn from(n: u32) -> Rvalue {
        match n {
            0 => Rvalue::Use,
            1 => Rvalue::Repeat,
            2 => Rvalue::Ref,
            3 => Rvalue::RawPtr,
            4 => Rvalue::Cast,
            5 => Rvalue::BinaryOp,
            6 => Rvalue::UnaryOp,
            7 => Rvalue::Discriminant,
            8 => Rvalue::Aggregate,
            _ => Rvalue::Other,
        }
    }
}

// Has the kind this flag?
#[tactic(auto, unfolding(model::specs::Assign::flag_ok))]
fn flag_ok(kind: Rvalue, flag: u32) -> bool
    ensures { result ≡ flag_ok (kind_code kind) flag }
{
    match flag {
        0 => true,
        1 => matches!(kind, Rvalue::Ref | Rvalue::UnaryOp),
        _ => false,
    }
}

// And so many operands?
#[tactic(auto, unfolding(model::specs::Assign::count_ok))]
fn count_ok(kind: Rvalue, count: u32) -> bool
    ensures { result ≡ count_ok (kind_code kind) count }
{
    match kind {
        Rvalue::Aggregate => true,
        Rvalue::BinaryOp => count == 2,
        _ => count == 1,
    }
}

// Has its operand to be a place?
#[tactic(auto, unfolding(model::specs::Assign::wants_place))]
fn wants_place(kind: Rvalue) -> bool
    ensures { result ≡ wants_place (kind_code kind) }
{
    matches!(kind, Rvalue::Ref | Rvalue::RawPtr | Rvalue::Discriminant)
}

// first, last: how many items the first operand and the destination have.
#[tactic(auto, unfolding(crate::specs::Checked::words_known))]
fn words_known(kind: Rvalue, flag: u32, count: u32, first: u32, last: u32) -> bool
    ensures { result ≡ words_known (kind_code kind) flag count first last }
{
    kind != Rvalue::Other
        && flag_ok(kind, flag)
        && count_ok(kind, count)
        && !(wants_place(kind) && first == 0)
        && last != 0
}

// Is each statement of a list that passes one?
pub fn all_known(list: &[u32]) -> bool
    requires { list_ok list.now ≡ true }
    ensures { result ≡ known_in (statements_of list.now) }
{
    let n = list.len();
    let mut at = 0;
    while at < n {
        let kind = Rvalue::from(list[at]);
        let k = list[at + 2];
        let last = operands_end(list, at + 3, k as usize);
        if !words_known(kind, list[at + 1], k, list[at + 3], list[last]) {
            return false;
        }
        at = last + 1 + 2 * list[last] as usize;
    }
    true
}
