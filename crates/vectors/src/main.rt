// Every call over stored cases, a case to a line of `stdin` and its answer to a line of `stdout`: the refusal or 0 and what the call answers, then
// behind bars what it leaves in states and lent arrays, without the zeros at their end.
#![tactic(auto)]

ghost use Rattle.std.specs.Prelude.{◌≤◌, length, IfSome};
ghost use Rattle.stream.specs.Filled.{Filled};

mod answers;
mod checks;
mod items;
mod lists;
mod merges;
mod places;
mod states;
mod whole;

use std::io::Read;
use stream::{Reader, end_word, idle, print_text, room, step};

// The case of a line: which call, then its input.
fn answer(rt: &impl Print, words: &[u32]) {
    let Some((which, rest)) = words.split_first() else {
        return;
    };
    match *which {
        1 => checks::types(rt, rest),
        2 => checks::function(rt, rest),
        3 | 13 => whole::call(rt, *which, rest),
        4..=7 => places::call(rt, *which, rest),
        12 => items::call(rt, rest),
        14 => merges::call(rt, rest),
        _ => states::call(rt, *which, rest),
    }
    print_text(rt, b"\n");
}

// A byte more; at the end of a line its case is answered.
fn next(rt: &impl Print, r: Reader, c: u8, words: &mut [u32]) -> Reader
    requires { r.total ≤ length words.old }
    ensures { Filled words.old result.total words.new }
{
    if c != b'\n' {
        return step(r, c, words);
    }
    let s = end_word(r, words);
    answer(rt, &words[..s.total]);
    idle(0)
}

fn feed(rt: &impl Print, r: Reader, text: &[u8], words: &mut [u32]) -> Reader
    requires { r.total ≤ length words.old }
    ensures { Filled words.old result.total words.new }
{
    let mut s = r;
    for c in text {
        s = next(rt, s, *c, words);
    }
    s
}

// One read: None at the end of the input, and where a read failed.
fn read_some(rt: &impl Print, input: &mut impl Read, r: Reader, words: &mut [u32]) -> Option<Reader>
    requires { r.total ≤ length words.old }
    ensures { IfSome result (λ s. Filled words.old s.total words.new) }
{
    let mut buf = [0u8; 4096];
    let n = input.read(&mut buf).unwrap_or(0);
    if n == 0 {
        return None;
    }
    Some(feed(rt, r, &buf[..n], words))
}

// The turns are counted, up to a number that no run reaches, since nothing says that an input ends.
fn main(rt: HostRuntime) {
    let mut words = room();
    let mut r = idle(0);
    for _ in 0..u64::MAX {
        let Some(s) = read_some(&rt, &mut rt.stdin(), r, &mut words) else {
            return;
        };
        r = s;
    }
}
