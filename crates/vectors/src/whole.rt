// The whole-function call, and that of a whole crate: 3 ghost_statements, 13 crate_statements.
use crate::answers::{print_answer, print_numbers};
use crate::lists::{lent, split_list, words_from};
use fold_unfold::ghost_statements;
use stream::print_words;
use whole_crate::crate_statements;

// What was lent.
fn print_lent(rt: &impl Print, forms: &[u16], whats: &[u16], out: &[u32]) {
    print_words(rt, out);
    print_words(rt, forms);
    print_words(rt, whats);
}

// The lengths of the store's arrays and of the buffer, and of a function of the array for the numbers; then the type record and the function's,
// or a crate's count and records. What is lent is not zeros, so that it shows what is left in it.
pub fn call(rt: &impl Print, which: u32, words: &[u32]) {
    let mut forms = [7u16; 16384];
    let mut whats = [7u16; 16384];
    let mut out = [7u32; 4096];
    let mut told = [7u32; 4096];
    let forms = &mut forms[..lent(words, 0, 16384)];
    let whats = &mut whats[..lent(words, 1, 16384)];
    let out = &mut out[..lent(words, 2, 4096)];
    if which == 3 {
        let told = &mut told[..lent(words, 3, 4096)];
        let (types, rest) = split_list(words_from(words, 4));
        let (fun, _) = split_list(rest);
        let counts = ghost_statements(types, fun, forms, whats, out, told);
        print_answer(
            rt,
            counts,
            |c| print_numbers(rt, &[c.statements, c.entries]),
        );
        print_lent(rt, forms, whats, out);
        print_words(rt, told);
    } else {
        let (types, rest) = split_list(words_from(words, 3));
        let (records, _) = split_list(rest);
        match crate_statements(types, records, forms, whats, out) {
            Ok(()) => print_numbers(rt, &[0]),
            Err(e) => print_numbers(rt, &[u32::from(e.refusal) as usize, e.position as usize]),
        }
        print_lent(rt, forms, whats, out);
    }
}
