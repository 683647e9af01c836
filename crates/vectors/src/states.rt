// The calls on one state or two: 8 join, 9 collect_fold_unfolds, 10 collect_unfolds, 11 collect_folds_at_ret.
use crate::answers::{print_answer, print_numbers};
use crate::lists::{lent, number, split_list};
use collect::{collect_fold_unfolds, collect_folds_at_ret, collect_unfolds};
use join::join;
use state::nodes::State;
use stream::{print_number, print_words};

// The first 512 words as they fit.
fn half(words: &[u32]) -> [u16; 512] {
    let mut a = [0u16; 512];
    for (x, w) in a.iter_mut().zip(words) {
        *x = (*w % 65536) as u16;
    }
    a
}

// The state of a case.
pub fn given(forms: &[u32], whats: &[u32], nodes: u32) -> State {
    State {
        forms: half(forms),
        whats: half(whats),
        nodes: nodes as usize,
    }
}

pub fn print_state(rt: &impl Print, s: State) {
    print_words(rt, &s.forms);
    print_words(rt, &s.whats);
    print_number(rt, s.nodes);
}

// Types, locals, forms, whats, forms and whats of the second state as lists; then both node counts, the number of arguments, the
// length of the buffer.
pub fn call(rt: &impl Print, which: u32, words: &[u32]) {
    let (types, rest) = split_list(words);
    let (locals, rest) = split_list(rest);
    let (forms, rest) = split_list(rest);
    let (whats, rest) = split_list(rest);
    let (other_forms, rest) = split_list(rest);
    let (other_whats, rest) = split_list(rest);
    let s = given(forms, whats, number(rest, 0));
    let e = given(other_forms, other_whats, number(rest, 1));
    if which == 8 {
        let m = join(types, locals, s, e);
        print_answer(rt, m.answer, |flag| print_number(rt, usize::from(flag)));
        print_state(rt, m.state);
        return;
    }
    let mut buffer = [7u32; 4096];
    let out = &mut buffer[..lent(rest, 3, 4096)];
    let counts = match which {
        9 => collect_fold_unfolds(types, locals, s, e, out),
        10 => collect_unfolds(types, locals, s, out),
        _ => collect_folds_at_ret(types, locals, number(rest, 2) as usize, s, out),
    };
    print_answer(
        rt,
        counts,
        |c| print_numbers(rt, &[c.statements, c.entries]),
    );
    print_words(rt, out);
}
