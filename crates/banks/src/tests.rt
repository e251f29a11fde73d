use crate::answers::Answer;
use crate::bank::Bank;
use crate::causes::Cause;
use crate::joined::join;
use crate::no_bank::NoBank;
use crate::operands::{Operand, Short};
use crate::phrases::Phrases;
use crate::sums::Sums;
use std::test::Fail;
use tray::trays::Tray;

fn whole<'a>(n: i64) -> Operand<'a> {
    Operand::Whole(n)
}

fn given<'a>(operand: Operand<'a>) -> Option<Operand<'a>> {
    Some(operand)
}

fn missing<'a>() -> Option<Operand<'a>> {
    None
}

fn text<'a>(bytes: &'a [u8]) -> Operand<'a> {
    Short::new(bytes).map_or(Operand::Nil, Operand::Text)
}

fn sum(name: &[u8], a: i64, b: i64) -> Result<Answer, Cause> {
    let mut answer = [7; 256];
    Sums.apply(name, whole(a), given(whole(b)), &mut answer)
}

#[test]
fn edges(rt: HostRuntime) {
    assert_eq!(rt; sum(b"plus", i64::MAX, 0), Ok(Answer::Whole(i64::MAX)));
    assert_eq!(rt; sum(b"plus", i64::MAX, 1), Err(Cause::Overflow));
    assert_eq!(rt; sum(b"minus", i64::MIN, 1), Err(Cause::Overflow));
    assert_eq!(rt; sum(b"minus", 3, 5), Ok(Answer::Whole(-2)));
    assert_eq!(rt; sum(b"times", i64::MIN, -1), Err(Cause::Overflow));
    assert_eq!(rt; sum(b"times", i64::MIN, 1), Ok(Answer::Whole(i64::MIN)));
}

// Operands that are wrong, missing or read from texts; the buffer behind a number and behind a cause.
#[test]
fn operands(rt: HostRuntime) {
    let mut answer = [7; 256];
    assert_eq!(rt;
        Sums.apply(b"plus", whole(1), missing(), &mut answer),
        Err(Cause::WrongOperand)
    );
    assert_eq!(rt;
        Sums.apply(b"plus", whole(1), given(text(b"4x")), &mut answer),
        Err(Cause::WrongOperand)
    );
    assert_eq!(rt; answer[0], 7);
    assert_eq!(rt; answer[255], 7);
    assert_eq!(rt;
        Sums.apply(b"times", text(b"4"), given(text(b"+5")), &mut answer),
        Ok(Answer::Whole(20))
    );
    assert_eq!(rt; answer[0], 0);
    assert_eq!(rt; answer[255], 0);
}

#[test]
fn names(rt: HostRuntime) {
    let mut sums = join(NoBank, Sums);
    assert!(rt; sums.knows(b"plus"));
    assert!(rt; !sums.knows(b"plus "));
    assert!(rt; !sums.knows(b"plu"));
    assert!(rt; !sums.knows(b"pluS"));
    assert!(rt; !sums.knows(b""));
    assert_eq!(rt; sum(b"Plus", 1, 2), Err(Cause::UnknownName));
    assert_eq!(rt; sum(b"", 1, 2), Err(Cause::UnknownName));
}

#[test]
fn lengths(rt: HostRuntime) {
    let long = [b'0'; 257];
    assert!(rt; Short::new(&long).is_none());
    assert!(rt; Short::new(&long[0..256]).is_some());
}

// What a bank gives for a text: the length of a text and the last byte of the buffer, or a cause.
fn phrase<B: Bank>(bank: &mut B, name: &[u8], key: &[u8]) -> (usize, u8) {
    let mut answer = [7; 256];
    match bank.apply(name, text(key), missing(), &mut answer) {
        Ok(Answer::Text(n)) => (n, answer[255]),
        Ok(Answer::Whole(_)) => (0, answer[255]),
        Err(c) => (c.number() as usize, answer[255]),
    }
}

// One key, `a`, for a text of 256 bytes, and one, `aa`, for a number.
#[test]
fn phrases(rt: HostRuntime) -> Result<(), Fail> {
    let bytes = [
        5, 1, 0, 2, 0, 3, 0, 0, 1, 0, 3, 0, 0, 0, 1, 3, 0, 0, 2, 0, 0,
    ];
    let letters = [b'a'; 256];
    let Ok(tray) = Tray::open(rt.alloc(), &bytes, &letters) else {
        return Err(Fail::new("the tray is refused"));
    };
    let mut bank = join(Sums, Phrases::new(tray));
    assert_eq!(rt; phrase(&mut bank, b"phrase", b"a"), (256, b'a'));
    assert_eq!(rt; phrase(&mut bank, b"phrase", b"aa"), (4, 7));
    assert_eq!(rt; phrase(&mut bank, b"plus", b"1"), (2, 7));
    Ok(())
}
