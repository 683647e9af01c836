// A list of statements by kind: each is kind, flag, operand count, the operands, the destination; an operand or destination is its
// number of items and those items as op, arg pairs. Refusal 2.
ghost use Rattle.std.specs.Prelude.{◌≡◌, ◌+◌, ◌*◌, ◌<◌, ◌≤◌, length};
ghost use Rattle.assign.specs.Operands.{elements_ok};
ghost use Rattle.assign.specs.Words.{items_at, operands_end};
ghost use Rattle.assign.specs.Checked.{place_end, places_end, list_ok};

use mir::items::{ROOT, is_element};

// Of 16,384 items.
pub const MOST_WORDS: usize = 32768;

// Are the n items from word `at` on elements?
fn elements_ok(list: &[u32], at: usize, n: usize) -> bool
    requires { at + 2 * n ≤ length list.now }
    ensures { result ≡ elements_ok (items_at list.now at n) }
{
    for i in 0..n {
        let o = at + 2 * i;
        if !is_element(list[o], list[o + 1]) {
            return false;
        }
    }
    true
}

// The end of the operand whose number of items is word `at`; none if it is cut off, or its items are no place.
fn place_end(list: &[u32], at: usize) -> Option<usize>
    requires { at < length list.now }
    ensures { result ≡ place_end list.now at }
{
    let n = list[at] as usize;
    if (list.len() - at - 1) / 2 < n {
        return None;
    }
    if n != 0 && (list[at + 1] != ROOT || !elements_ok(list, at + 3, n - 1)) {
        return None;
    }
    Some(at + 1 + 2 * n)
}

// The end of k operands; none if one is cut off or no place.
fn places_end(list: &[u32], at: usize, k: usize) -> Option<usize>
    ensures { result ≡ places_end list.now k at }
{
    let mut a = at;
    for _ in 0..k {
        if list.len() <= a {
            return None;
        }
        a = place_end(list, a)?;
    }
    Some(a)
}

// The list passes: it ends where a statement does, has no more than 16,384 items, and its operands are places or constants.
pub fn list_ok(list: &[u32]) -> bool
    ensures { result ≡ list_ok list.now }
{
    let n = list.len();
    let mut words = 0;
    let mut at = 0;
    while at < n {
        if n - at < 4 {
            return false;
        }
        let k = list[at + 2] as usize + 1;
        let Some(e) = places_end(list, at + 3, k) else {
            return false;
        };
        words += e - (at + 3) - k;
        at = e;
    }
    words <= MOST_WORDS
}

// The end of k operands of a list that passes.
pub fn operands_end(list: &[u32], at: usize, k: usize) -> usize
    requires { operands_end list.now k at ≤ length list.now }
    ensures { result ≡ operands_end list.now k at }
{
    let mut a = at;
    for _ in 0..k {
        a += 1 + 2 * list[a] as usize;
    }
    a
}
