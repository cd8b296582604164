//! The table of refusals.
use refusal::Refusal;

#[test]
fn numbers_and_places(rt: HostRuntime) {
    let placed = [
        Refusal::Truncated { token: 3 },
        Refusal::WrongVersion { token: 3 },
        Refusal::UnexpectedField { token: 3 },
        Refusal::LengthOutOfLimits { token: 3 },
        Refusal::WrongIdentifier { token: 3 },
        Refusal::TooManyCaveats { token: 3 },
        Refusal::WrongSeat { token: 3 },
    ];
    for (refusal, number) in placed.iter().zip(1u8..) {
        assert_eq!(rt; refusal.number(), number);
        assert_eq!(rt; refusal.place(), Some(3));
    }
    let plain = [
        Refusal::NoSuchSlot,
        Refusal::SlotEmpty,
        Refusal::SlotTaken,
        Refusal::WrongKind,
        Refusal::WrongLength,
        Refusal::TokenFull,
        Refusal::WrongOffice,
        Refusal::NoKey,
        Refusal::TooManyDischarges,
        Refusal::MemoryTooShort,
        Refusal::MessageTooLong,
        Refusal::AlreadyListed,
        Refusal::ListFull,
        Refusal::WrongRequest,
        Refusal::SheetNotListed,
        Refusal::OtherAccount,
        Refusal::WrongSignature,
    ];
    for (refusal, number) in plain.iter().zip(8u8..) {
        assert_eq!(rt; refusal.number(), number);
        assert_eq!(rt; refusal.place(), None);
    }
    assert_eq!(rt; Refusal::ConditionFails { caveat: 5 }.number(), 25);
    assert_eq!(rt; Refusal::ConditionFails { caveat: 5 }.place(), Some(5));
    assert_eq!(rt; Refusal::ReferenceUnanswered { caveat: 2 }.number(), 26);
    assert_eq!(rt; Refusal::ReferenceUnanswered { caveat: 2 }.place(), Some(2));
    assert_eq!(rt; Refusal::UnreadableLine.number(), 27);
    assert_eq!(rt; Refusal::UnreadableLine.place(), None);
}
