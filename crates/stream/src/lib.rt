// What the programs over stored cases read and print: decimal words, where `v*n` stands for n times v.
#![tactic(auto)]

ghost use Rattle.std.specs.Prelude.{◌≡◌, ◌≤◌, length};
ghost use Rattle.stream.specs.Filled.{Filled};

// Room for the words of a line.
pub fn room() -> [u32; 65536]
    ensures { length result ≡ 65536 }
{
    [0; 65536]
}

// What is being read: no word; a word's value so far; or its value, and behind a `*` its count so far.
#[derive(Clone, Copy)]
pub enum Part {
    Between,
    Value(u64),
    Times { value: u64, times: u64 },
}

// Where reading has come to: how many words there are, and the word that is being read.
#[derive(Clone, Copy)]
pub struct Reader {
    pub total: usize,
    pub part: Part,
}

pub fn idle(total: usize) -> Reader
    ensures { result.total ≡ total }
{
    Reader {
        total,
        part: Part::Between,
    }
}

// The word v, n times, as far as there is room.
fn put(words: &mut [u32], from: usize, v: u64, n: u64) -> usize
    requires { from ≤ length words.old }
    ensures { Filled words.old result words.new }
{
    let left = words.len() - from;
    let end = from + n.min(left as u64) as usize;
    words[from..end].fill((v % 4294967296) as u32);
    end
}

// A word ends, if one is being read.
pub fn end_word(r: Reader, words: &mut [u32]) -> Reader
    requires { r.total ≤ length words.old }
    ensures { Filled words.old result.total words.new }
{
    match r.part {
        Part::Between => r,
        Part::Value(v) => idle(put(words, r.total, v, 1)),
        Part::Times { value, times } => idle(put(words, r.total, value, times)),
    }
}

// A digit more; numbers past 10^12 are no words.
fn grown(v: u64, d: u64) -> u64 {
    (v % 1000000000000) * 10 + d % 10
}

fn digit(part: Part, d: u64) -> Part {
    match part {
        Part::Between => Part::Value(grown(0, d)),
        Part::Value(v) => Part::Value(grown(v, d)),
        Part::Times { value, times } => Part::Times {
            value,
            times: grown(times, d),
        },
    }
}

// A `*`: the count begins.
fn star(part: Part) -> Part {
    let value = match part {
        Part::Between => 0,
        Part::Value(v) => v,
        Part::Times { value, times: _ } => value,
    };
    Part::Times { value, times: 0 }
}

pub fn step(r: Reader, c: u8, words: &mut [u32]) -> Reader
    requires { r.total ≤ length words.old }
    ensures { Filled words.old result.total words.new }
{
    match c {
        b'0'..=b'9' => Reader {
            part: digit(r.part, (c - b'0') as u64),
            ..r
        },
        b'*' => Reader {
            part: star(r.part),
            ..r
        },
        _ => end_word(r, words),
    }
}

pub fn print_number(rt: &impl Print, n: usize) {
    let _ = rt.print(n);
    print_text(rt, b" ");
}

// How many words there are up to the last that is not 0.
fn used<T: Copy + Into<u32>>(a: &[T]) -> usize
    ensures { result ≤ length a.now }
{
    a.iter()
        .rposition(|x| (*x).into() != 0)
        .map_or(0, |i| i + 1)
}

// Words without the zeros at their end, behind a bar.
pub fn print_words<T: Copy + Into<u32>>(rt: &impl Print, a: &[T]) {
    print_text(rt, b"| ");
    for x in &a[..used(a)] {
        let w: u32 = (*x).into();
        print_number(rt, w as usize);
    }
}

// What cannot be written is let go.
pub fn print_text(rt: &impl Print, s: &[u8]) {
    let _ = rt.write_all(s);
}
