// The numbered refusals, by the trade's words of documents 01 and 02.
#![tactic(auto)]

ghost use Rattle.std.specs.Prelude.{◌≡◌};
ghost use Rattle.refusal.specs.Refusal.{number};

#[derive(Clone, Copy, Debug, PartialEq, Eq)]
pub enum Refusal {
    BadTypes,
    BadFunction,
    BadState,
    BadPlace,
    WrongStep,
    OtherVariant,
    BareVariant,
    NoSuchValue,
    StateFull,
    ShortStore,
    UnknownStatement,
    MergedTooLarge,
}

impl From<Refusal> for u32 {
    ghost from_gives = { λ r n. n ≡ number r };

    fn from(r: Refusal) -> u32 {
        match r {
            Refusal::BadTypes => 1,
            Refusal::BadFunction => 2,
            Refusal::BadState => 3,
            Refusal::BadPlace => 4,
            Refusal::WrongStep => 5,
            Refusal::OtherVariant => 6,
            Refusal::BareVariant => 7,
            Refusal::NoSuchValue => 8,
            Refusal::StateFull => 9,
            Refusal::ShortStore => 10,
            Refusal::UnknownStatement => 11,
            Refusal::MergedTooLarge => 12,
        }
    }
}
