//! Output lines, and a run in memory for one row of each list.
use answer::Answer;
use answer::line::OutputLine;
use refusal::Refusal;
use register::rows::{Account, Office, Sheet};
use session::run::Run;
use session::setup::Setup;
use std::test::Fail;

#[test]
fn reports(rt: HostRuntime) {
    let cases: [(u64, Answer, &[u8]); 5] = [
        (1, Ok(()), b"1\tok\n"),
        (10, Err(Refusal::AlreadyListed), b"10\t19\n"),
        (
            11,
            Err(Refusal::LengthOutOfLimits { token: 0 }),
            b"11\t4\t0\n",
        ),
        (
            12,
            Err(Refusal::ReferenceUnanswered { caveat: 2 }),
            b"12\t26\t2\n",
        ),
        (
            u64::MAX,
            Err(Refusal::WrongSeat { token: usize::MAX }),
            b"18446744073709551615\t7\t18446744073709551615\n",
        ),
    ];
    for (number, answer, text) in cases {
        assert_eq!(rt; OutputLine::report(number, answer).as_bytes(), text);
    }
}

#[test]
fn runs_in_short_memory(rt: HostRuntime) -> Result<(), Fail> {
    let mut accounts = [Account::default(); 1];
    let mut offices = [Office::default(); 1];
    let mut sheets = [Sheet::default(); 1];
    let mut run = Run::new(Setup::new(&mut accounts, &mut offices, &mut sheets));
    let file: [(&[u8], &[u8]); 5] = [
        (b"S\t2\n", b"1\tok\n"),
        (b"F\ta\t1\t1\n", b"2\tok\n"),
        (b"F\tb\t1\t1\n", b"3\t20\n"),
        (b"F\ta\t1\t1\n", b"4\t19\n"),
        (b"\n", b"5\t27\n"),
    ];
    for (line, answer) in file {
        for byte in line {
            if let Some(output) = run.take(*byte) {
                assert_eq!(rt; output.as_bytes(), answer);
            }
        }
    }
    assert!(rt; run.finish().is_none());
    assert!(rt; run.take(b'F').is_none());
    match run.finish() {
        Some(output) => {
            assert_eq!(rt; output.as_bytes(), b"6\t27\n".as_slice());
            Ok(())
        },
        None => Err(Fail::new("a line without a line feed is a line")),
    }
}
