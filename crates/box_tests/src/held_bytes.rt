//! Bytes held by value.
use held::Held;
use std::test::Fail;

#[test]
fn holds_up_to_its_limit(rt: HostRuntime) -> Result<(), Fail> {
    for length in 0..=4 {
        let bytes = &b"card"[..length];
        let Some(held) = Held::<4>::holding(bytes) else {
            return Err(Fail::new("at most four bytes"));
        };
        assert_eq!(rt; held.as_bytes(), bytes);
    }
    assert!(rt; Held::<4>::holding(b"cards").is_none());
    assert!(rt; Held::<0>::holding(b"c").is_none());
    Ok(())
}

#[test]
fn pushes_behind_what_is_held(rt: HostRuntime) {
    let mut held = Held::<8>::new();
    assert_eq!(rt; held.as_bytes(), b"".as_slice());
    assert!(rt; held == Held::default());
    held.push(b"sheet");
    let before = held;
    held.push(b"");
    assert!(rt; held == before);
    held.push(b"s/1");
    assert_eq!(rt; held.as_bytes(), b"sheets/1".as_slice());
    assert_eq!(rt; before.as_bytes(), b"sheet".as_slice());
    assert!(rt; held != before);
}
