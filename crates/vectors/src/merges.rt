// Two type records: 14 merge_types.
use crate::answers::print_answer;
use crate::lists::{lent, split_list, words_from};
use merge::merge_types;
use stream::{print_number, print_words};

// The length of the output, then both records.
pub fn call(rt: &impl Print, words: &[u32]) {
    let mut buffer = [7u32; 4096];
    let out = &mut buffer[..lent(words, 0, 4096)];
    let (first, rest) = split_list(words_from(words, 1));
    let (second, _) = split_list(rest);
    print_answer(rt, merge_types(first, second, out), |n| print_number(rt, n));
    print_words(rt, out);
}
