//! Lists in lent memory.
use refusal::Refusal;
use register::lists;
use register::path::SheetPath;
use register::rows::{Account, Office, Sheet};
use register::table::Register;
use std::test::Fail;

#[test]
fn accounts_in_two_rows(rt: HostRuntime) {
    let mut memory = [Account::default(); 2];
    let mut accounts = Register::new(&mut memory);
    assert_eq!(rt; accounts.find(&0), None, "a default row is not in use");
    assert_eq!(rt;
        accounts.add(Account {
            number: 7,
            key: [1; 32],
        }),
        Ok(())
    );
    assert_eq!(rt;
        accounts.add(Account {
            number: 7,
            key: [2; 32],
        }),
        Err(Refusal::AlreadyListed)
    );
    assert_eq!(rt;
        accounts.add(Account {
            number: 0,
            key: [3; 32],
        }),
        Ok(())
    );
    assert_eq!(rt;
        accounts.add(Account {
            number: 9,
            key: [4; 32],
        }),
        Err(Refusal::ListFull)
    );
    assert_eq!(rt;
        accounts.add(Account {
            number: 7,
            key: [4; 32],
        }),
        Err(Refusal::AlreadyListed)
    );
    assert_eq!(rt; accounts.find(&0), Some(1));
    assert_eq!(rt; accounts.find(&9), None);
    assert_eq!(rt; accounts.rows().len(), 2);
}

#[test]
fn offices_by_their_range(rt: HostRuntime) {
    let mut memory = [Office::default(); 9];
    let mut offices = Register::new(&mut memory);
    assert_eq!(rt;
        lists::add_office(&mut offices, 0, [0; 32]),
        Err(Refusal::WrongOffice)
    );
    assert_eq!(rt;
        lists::add_office(&mut offices, 5, [0; 32]),
        Err(Refusal::WrongOffice)
    );
    assert_eq!(rt;
        lists::add_office(&mut offices, 257, [0; 32]),
        Err(Refusal::WrongOffice)
    );
    for number in 1..=4 {
        assert_eq!(rt; lists::add_office(&mut offices, number, [0; 32]), Ok(()));
    }
    assert_eq!(rt;
        lists::add_office(&mut offices, 4, [0; 32]),
        Err(Refusal::AlreadyListed)
    );
    assert_eq!(rt; offices.find(&4), Some(3));
}

#[test]
fn sheets_by_their_path(rt: HostRuntime) -> Result<(), Fail> {
    let mut memory = [Sheet::default(); 1];
    let mut sheets = Register::new(&mut memory);
    assert_eq!(rt;
        lists::add_sheet(&mut sheets, b"", 7, 54),
        Err(Refusal::WrongLength)
    );
    assert_eq!(rt;
        lists::add_sheet(&mut sheets, &[b'a'; 41], 7, 54),
        Err(Refusal::WrongLength)
    );
    assert_eq!(rt; lists::add_sheet(&mut sheets, &[b'a'; 40], 7, 54), Ok(()));
    assert_eq!(rt;
        lists::add_sheet(&mut sheets, &[b'a'; 40], 8, 1),
        Err(Refusal::AlreadyListed)
    );
    assert_eq!(rt;
        lists::add_sheet(&mut sheets, &[b'a'; 39], 7, 54),
        Err(Refusal::ListFull)
    );
    let Some(listed) = SheetPath::new(&[b'a'; 40]) else {
        return Err(Fail::new("a path of 40 bytes"));
    };
    assert_eq!(rt; sheets.find(&listed), Some(0));
    assert_eq!(rt; listed.as_bytes().len(), 40);
    let Some(other) = SheetPath::new(b"fox") else {
        return Err(Fail::new("a path of 3 bytes"));
    };
    assert_eq!(rt; sheets.find(&other), None);
    Ok(())
}
