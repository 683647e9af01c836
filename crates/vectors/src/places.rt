// The calls on a state and a place: 4 projection, 5 downcast, 6 fold, 7 unfold.
use crate::answers::{print_answer, print_numbers};
use crate::lists::{number, split_list};
use crate::states::{given, print_state};
use env::project::{Moved, Projected, Usage, Use};

fn print_use(rt: &impl Print, u: Use) {
    match u.recorded {
        Projected::Nothing => print_numbers(rt, &[0, u.passed]),
        Projected::Fold => print_numbers(rt, &[1, u.passed]),
        Projected::Unfold(n) => print_numbers(rt, &[2, n, u.passed]),
    }
}

fn print_usage(rt: &impl Print, u: Usage) {
    print_answer(rt, u.answer, |a| print_use(rt, a));
    print_state(rt, u.state);
}

fn print_moved(rt: &impl Print, m: Moved) {
    print_answer(rt, m.answer, |()| ());
    print_state(rt, m.state);
}

// Types, locals, forms, whats, ops and args as lists; then the node count and the variant.
pub fn call(rt: &impl Print, which: u32, words: &[u32]) {
    let (types, rest) = split_list(words);
    let (locals, rest) = split_list(rest);
    let (forms, rest) = split_list(rest);
    let (whats, rest) = split_list(rest);
    let (ops, rest) = split_list(rest);
    let (args, rest) = split_list(rest);
    let s = given(forms, whats, number(rest, 0));
    let variant = number(rest, 1);
    match which {
        4 => print_usage(rt, env::projection(types, locals, s, ops, args)),
        5 => print_moved(rt, env::downcast(types, locals, s, ops, args, variant)),
        6 => print_moved(rt, env::fold(types, locals, s, ops, args)),
        _ => print_moved(rt, env::unfold(types, locals, s, ops, args)),
    }
}
