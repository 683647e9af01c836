// The words of a text, read in pieces: decimal numbers below 2^32, parted by blanks and newlines.
ghost use Rattle.std.specs.Prelude.{◌≡◌, Some, length};
ghost use Rattle.model.specs.Ghosts.{fresh, close, digit, scan_byte, scan};
ghost use Rattle.text.specs.Reading.{Begins, Steps, StepsAside};

pub const MOST_WORDS: usize = 4096;

// Where reading has come to, while all is well: how many words, and the value of one that is being read. Behind other text reading stands at
// None, and so it stays.
#[derive(Clone, Copy)]
pub struct Scan {
    pub total: usize,
    pub value: Option<u32>,
}

pub fn fresh() -> Option<Scan>
    ensures { Begins fresh result }
{
    Some(Scan {
        total: 0,
        value: None,
    })
}

// A word ends, if one is being read.
pub fn close(s: Option<Scan>, words: &mut [u32]) -> Option<Scan>
    requires { length words.old ≡ 4096 }
    ensures { Steps close s words.old result words.new }
{
    let s = s?;
    let Some(v) = s.value else {
        return Some(s);
    };
    if MOST_WORDS <= s.total {
        return None;
    }
    words[s.total] = v;
    Some(Scan {
        total: s.total + 1,
        value: None,
    })
}

// A digit: a number from 2^32 on is other text.
fn digit(s: Scan, d: u32) -> Option<Scan>
    ensures { StepsAside (digit d) (Some s) result }
{
    let v = s.value.unwrap_or(0).checked_mul(10)?.checked_add(d)?;
    Some(Scan {
        value: Some(v),
        ..s
    })
}

// One byte.
pub fn scan_byte(s: Option<Scan>, c: u8, words: &mut [u32]) -> Option<Scan>
    requires { length words.old ≡ 4096 }
    ensures { Steps (scan_byte c) s words.old result words.new }
{
    let s = s?;
    match c {
        b'\n' | b' ' => close(Some(s), words),
        b'0'..=b'9' => digit(s, u32::from(c - b'0')),
        _ => None,
    }
}

// A piece of the text. Behind other text nothing is read.
pub fn scan_piece(s: Option<Scan>, text: &[u8], words: &mut [u32]) -> Option<Scan>
    requires { length words.old ≡ 4096 }
    ensures { Steps (scan text.now) s words.old result words.new }
{
    let mut t = s?;
    for c in text {
        t = scan_byte(Some(t), *c, words)?;
    }
    Some(t)
}
