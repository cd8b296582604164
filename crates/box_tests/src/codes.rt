//! Comparing tags, and what the functions for other languages are made of.
use blake2s::code::KeyedBlake2s;
use cipher::chacha::ChaChaCipher;
use exports::{put_encrypted, put_tag};
use mac::comparison::same_tag;
use sha256::code::HmacSha256;

#[test]
fn tags_that_differ_in_one_bit(rt: HostRuntime) {
    let tag = [0x5a; 32];
    assert!(rt; same_tag(&tag, &tag));
    for i in 0..32 {
        let mut low = tag;
        low[i] ^= 1;
        assert!(rt; !same_tag(&tag, &low));
        let mut high = tag;
        high[i] ^= 0x80;
        assert!(rt; !same_tag(&high, &tag));
    }
}

#[test]
fn differences_do_not_cancel(rt: HostRuntime) {
    let tag = [0x5a; 32];
    let mut other = tag;
    other[0] ^= 3;
    other[31] ^= 3;
    assert!(rt; !same_tag(&tag, &other));
}

// RFC 8439, appendix A.1, and results of Python's hashlib and hmac for the empty message under the key of zeros.
#[test]
fn results_for_other_languages(rt: HostRuntime) {
    let mut out = [0xee; 32];
    assert_eq!(rt; put_tag(&HmacSha256, &[0; 32], &[], &mut out), 0);
    assert_eq!(rt; &out[0..4], [0xb6, 0x13, 0x67, 0x9a].as_slice());
    assert_eq!(rt; put_tag(&KeyedBlake2s, &[0; 32], &[], &mut out), 0);
    assert_eq!(rt; &out[0..4], [0xcc, 0x8e, 0xd0, 0x46].as_slice());
    put_encrypted(&ChaChaCipher, &[0; 32], &[0; 32], &mut out);
    assert_eq!(rt; &out[0..4], [0x76, 0xb8, 0xe0, 0xad].as_slice());
}

#[test]
fn refusals_leave_the_result_as_it_was(rt: HostRuntime) {
    let mut out = [0xee; 32];
    assert_eq!(rt; put_tag(&HmacSha256, &[7; 32], &[1; 1025], &mut out), 18);
    assert_eq!(rt; put_tag(&KeyedBlake2s, &[7; 32], &[1; 1025], &mut out), 18);
    assert_eq!(rt; &out[0..32], [0xee; 32].as_slice());
}
