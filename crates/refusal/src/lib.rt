//! The numbered refusals: every reason for which the box turns a call down.
//!
//! A call that refuses changes nothing. `docs/REFUSALS.md` has the table with an example for each number.
#![tactic(auto)]

ghost use Rattle.std.specs.Prelude.{◌≡◌};
ghost use Rattle.refusal.specs.Numbers.{number_of, place_of};

/// Why a call was turned down. A fault in the bytes of a packet carries the place of the token it lies in, the root being
/// token 0; a caveat that fails carries its place among the root's caveats, counted from 0.
#[derive(Clone, Copy, PartialEq, Eq, Debug)]
pub enum Refusal {
    /// The bytes end within a token, or there are none.
    Truncated { token: usize },
    /// A token begins with another byte than 02.
    WrongVersion { token: usize },
    /// Another field is due here.
    UnexpectedField { token: usize },
    /// A field's length is outside its limits.
    LengthOutOfLimits { token: usize },
    /// The rank or office byte is wrong, or a root's identifier has fewer than 4 bytes.
    WrongIdentifier { token: usize },
    /// A ninth caveat or a fifth reference.
    TooManyCaveats { token: usize },
    /// A root stands where a discharge is due or the other way round, or this is a tenth token.
    WrongSeat { token: usize },
    /// The slot's number is over 11.
    NoSuchSlot,
    SlotEmpty,
    SlotTaken,
    /// The slot holds a root where a discharge is wanted, or the other way round.
    WrongKind,
    /// The length of a serial, case, condition or sheet path is outside its limits.
    WrongLength,
    /// The token has 8 caveats, or 4 references where one more is wanted.
    TokenFull,
    /// The office is not 1 to 4, or not above the token's rank.
    WrongOffice,
    /// There is no key for this account or office.
    NoKey,
    /// Over eight discharges are named.
    TooManyDischarges,
    /// The memory or buffer lent to the call is too short.
    MemoryTooShort,
    /// The message is over the authentication code's limit.
    MessageTooLong,
    /// The name is listed already.
    AlreadyListed,
    /// The list, or the memory lent to it, is full.
    ListFull,
    /// The request's operation is over 2, or the length of its path is outside its limits.
    WrongRequest,
    SheetNotListed,
    /// The sheet belongs to another account.
    OtherAccount,
    /// The root's signature differs from the one worked out.
    WrongSignature,
    ConditionFails { caveat: usize },
    ReferenceUnanswered { caveat: usize },
    /// The line of a command file cannot be read, or is out of place.
    UnreadableLine,
}

impl Refusal {
    /// The number by which the box reports this refusal.
    pub fn number(self) -> u8
        ensures { result ≡ number_of self }
    {
        match self {
            Refusal::Truncated { .. } => 1,
            Refusal::WrongVersion { .. } => 2,
            Refusal::UnexpectedField { .. } => 3,
            Refusal::LengthOutOfLimits { .. } => 4,
            Refusal::WrongIdentifier { .. } => 5,
            Refusal::TooManyCaveats { .. } => 6,
            Refusal::WrongSeat { .. } => 7,
            Refusal::NoSuchSlot => 8,
            Refusal::SlotEmpty => 9,
            Refusal::SlotTaken => 10,
            Refusal::WrongKind => 11,
            Refusal::WrongLength => 12,
            Refusal::TokenFull => 13,
            Refusal::WrongOffice => 14,
            Refusal::NoKey => 15,
            Refusal::TooManyDischarges => 16,
            Refusal::MemoryTooShort => 17,
            Refusal::MessageTooLong => 18,
            Refusal::AlreadyListed => 19,
            Refusal::ListFull => 20,
            Refusal::WrongRequest => 21,
            Refusal::SheetNotListed => 22,
            Refusal::OtherAccount => 23,
            Refusal::WrongSignature => 24,
            Refusal::ConditionFails { .. } => 25,
            Refusal::ReferenceUnanswered { .. } => 26,
            Refusal::UnreadableLine => 27,
        }
    }

    /// The place that goes with this refusal: of the token with a fault, or of the caveat that fails.
    pub fn place(self) -> Option<usize>
        ensures { result ≡ place_of self }
    {
        match self {
            Refusal::Truncated { token }
            | Refusal::WrongVersion { token }
            | Refusal::UnexpectedField { token }
            | Refusal::LengthOutOfLimits { token }
            | Refusal::WrongIdentifier { token }
            | Refusal::TooManyCaveats { token }
            | Refusal::WrongSeat { token } => Some(token),
            Refusal::ConditionFails { caveat } | Refusal::ReferenceUnanswered { caveat } => Some(
                caveat,
            ),
            _ => None,
        }
    }
}
