// The items that a list of statements gives, written as count, op[], arg[]; or only counted.
ghost use Rattle.std.specs.Prelude.{◌≡◌, true, cond, ◌&&◌, [], ◌∷◌, ◌+◌, ◌*◌, ◌≤◌, length, eqb};
ghost use Rattle.model.specs.Assign.{operand_gives, operands_give, gives};
ghost use Rattle.assign.specs.Kinds.{kind_code};
ghost use Rattle.assign.specs.Words.{items_at, operand_at, operand_end, operands_at, operands_end, assign_at, assign_end};
ghost use Rattle.assign.specs.Checked.{list_ok};
ghost use Rattle.assign.specs.Puts.{Room, Puts, ending, acting, RoomAll, PutsAll};

use crate::known::Rvalue;
use crate::list::operands_end;
use mir::items::{DEREF, NOTE, READ, USE};

// Where reading and writing have come to: the word of the list, and the item, of so many in all. With no total items are only
// counted, and nothing is written.
#[derive(Clone, Copy)]
pub struct Pen {
    pub from: usize,
    pub at: usize,
    pub total: Option<usize>,
}

// One item.
fn put(out: &mut [u32], p: Pen, op: u32, arg: u32) -> Pen
    requires { Room out.old p 1 }
    ensures { Puts out.old p out.new result p.from ((op, arg) ∷ []) }
{
    if let Some(total) = p.total {
        out[1 + p.at] = op;
        out[1 + total + p.at] = arg;
    }
    Pen { at: p.at + 1, ..p }
}

// The n items from word `at` of the list on.
fn put_items(out: &mut [u32], p: Pen, list: &[u32], at: usize, n: usize) -> Pen
    requires n_in_bounds { at + 2 * n ≤ length list.now }
    requires room { Room out.old p n }
    ensures { Puts out.old p out.new result p.from (items_at list.now at n) }
{
    let mut q = p;
    for i in 0..n {
        let o = at + 2 * i;
        q = put(out, q, list[o], list[o + 1]);
    }
    q
}

// What is done with a place, or with its deref.
fn put_action(out: &mut [u32], p: Pen, deref: bool, action: u32) -> Pen
    requires { Room out.old p (length (ending deref action)) }
    ensures { Puts out.old p out.new result p.from (ending deref action) }
{
    if deref {
        let q = put(out, p, DEREF, 0);
        return put(out, q, action, 0);
    }
    put(out, p, action, 0)
}

// The operand that is read next, with a deref behind it or not, and what is done with it; of a constant nothing.
fn put_place(out: &mut [u32], p: Pen, list: &[u32], deref: bool, action: u32) -> Pen
    requires from_in_bounds { operand_end list.now p.from ≤ length list.now }
    requires room { Room out.old p (length (acting deref action (operand_at list.now p.from))) }
    ensures { Puts out.old p out.new result (operand_end list.now p.from) (acting deref action (operand_at list.now p.from)) }
{
    let from = p.from;
    let n = list[from] as usize;
    let q = Pen {
        from: from + 1 + 2 * n,
        ..p
    };
    if n == 0 {
        return q;
    }
    let r = put_items(out, q, list, from + 1, n);
    put_action(out, r, deref, action)
}

// Is it this kind, and is its flag 1?
fn flagged(kind: Rvalue, flag: u32, of: Rvalue) -> bool
    ensures { result ≡ eqb (kind_code kind) (kind_code of) && eqb flag 1 }
{
    kind == of && flag == 1
}

// An operand of a statement of this kind and flag.
fn put_operand(out: &mut [u32], p: Pen, list: &[u32], kind: Rvalue, flag: u32) -> Pen
    requires from_in_bounds { operand_end list.now p.from ≤ length list.now }
    requires room { Room out.old p (length (operand_gives (kind_code kind) flag (operand_at list.now p.from))) }
    ensures { Puts out.old p out.new result (operand_end list.now p.from) (operand_gives (kind_code kind) flag (operand_at list.now p.from)) }
{
    if flagged(kind, flag, Rvalue::Ref) {
        return Pen {
            from: operands_end(list, p.from, 1),
            ..p
        };
    }
    if kind == Rvalue::Discriminant {
        return put_place(out, p, list, false, READ);
    }
    let deref = flagged(kind, flag, Rvalue::UnaryOp);
    put_place(out, p, list, deref, USE)
}

// Its k operands.
fn put_operands(out: &mut [u32], p: Pen, list: &[u32], kind: Rvalue, flag: u32, k: usize) -> Pen
    requires from_in_bounds { operands_end list.now k p.from ≤ length list.now }
    requires room { Room out.old p (length (operands_give (kind_code kind) flag (operands_at list.now k p.from))) }
    ensures { Puts out.old p out.new result (operands_end list.now k p.from) (operands_give (kind_code kind) flag (operands_at list.now k p.from)) }
{
    let mut q = p;
    for _ in 0..k {
        q = put_operand(out, q, list, kind, flag);
    }
    q
}

// What is done with the destination.
fn destined(kind: Rvalue) -> u32
    ensures { result ≡ cond (eqb (kind_code kind) 7) 7 5 }
{
    if kind == Rvalue::Discriminant {
        NOTE
    } else {
        USE
    }
}

// The statement that is read next: its operands as they stand, then the destination.
fn put_statement(out: &mut [u32], p: Pen, list: &[u32]) -> Pen
    requires from_in_bounds { assign_end list.now p.from ≤ length list.now }
    requires room { Room out.old p (length (gives (assign_at list.now p.from))) }
    ensures { Puts out.old p out.new result (assign_end list.now p.from) (gives (assign_at list.now p.from)) }
{
    let from = p.from;
    let kind = Rvalue::from(list[from]);
    let flag = list[from + 1];
    let k = list[from + 2] as usize;
    let head = Pen {
        from: from + 3,
        ..p
    };
    let q = put_operands(out, head, list, kind, flag, k);
    put_place(out, q, list, false, destined(kind))
}

// All of a list that passes.
pub fn put_all(out: &mut [u32], p: Pen, list: &[u32]) -> Pen
    requires list_value { list_ok list.now ≡ true }
    requires from_value { p.from ≡ 0 }
    requires room_all { RoomAll list.now out.old p }
    ensures { PutsAll list.now out.old p out.new result }
{
    let n = list.len();
    let mut q = p;
    while q.from < n {
        q = put_statement(out, q, list);
    }
    q
}
