// The codes of items. A place is a root, which says its local, and elements.
ghost use Rattle.std.specs.Prelude.{◌≡◌};
ghost use Rattle.records.specs.Spots.{item_ok};

pub const ROOT: u32 = 0;

pub const DEREF: u32 = 1;

pub const FIELD: u32 = 2;

pub const DOWNCAST: u32 = 3;

pub const INDEX: u32 = 4;

// What is done with a place.
pub const USE: u32 = 5;

pub const READ: u32 = 6;

pub const NOTE: u32 = 7;

// How a block ends.
pub const SWITCH: u32 = 8;

pub const ARM: u32 = 9;

pub const TARGET: u32 = 10;

pub const RETURN: u32 = 11;

pub const STOP: u32 = 12;

// Is the item an element's?
pub fn is_element(o: u32, a: u32) -> bool
    ensures { result ≡ item_ok o a }
{
    match o {
        DEREF | INDEX => a == 0,
        FIELD | DOWNCAST => true,
        _ => false,
    }
}
