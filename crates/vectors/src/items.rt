// A list of statements: 12 statement_items.
use crate::answers::print_answer;
use crate::lists::{lent, split_list, words_from};
use assign::statement_items;
use stream::{print_number, print_words};

// The length of the buffer, then the list.
pub fn call(rt: &impl Print, words: &[u32]) {
    let mut buffer = [7u32; 4096];
    let out = &mut buffer[..lent(words, 0, 4096)];
    let (list, _) = split_list(words_from(words, 1));
    print_answer(rt, statement_items(list, out), |n| print_number(rt, n));
    print_words(rt, out);
}
