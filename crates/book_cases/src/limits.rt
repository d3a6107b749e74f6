use crate::tools::opened;
use refusals::Refusal;
use std::test::Fail;

#[test]
fn no_bytes(rt: HostRuntime) -> Result<(), Fail> {
    let mut book = opened(b"")?;
    assert_eq!(rt; book.look(b"", 0), Err(Refusal::PlaceOutside(0)));
    assert_eq!(rt; book.fetch(b"", 0), Err(Refusal::NumberOutside(0)));
    assert_eq!(rt; book.pin(b"", 0), Err(Refusal::PlaceOutside(0)));
    assert_eq!(rt; book.put(&mut [], 0, 1), Err(Refusal::PlaceOutside(0)));
    assert_eq!(rt; book.look(b"a", 0), Err(Refusal::OtherLength(1)));
    Ok(())
}

#[test]
fn one_byte(rt: HostRuntime) -> Result<(), Fail> {
    let mut text = *b"a";
    let mut book = opened(&text)?;
    assert_eq!(rt; book.look(&text, 0)?.end, 1);
    assert_eq!(rt; book.pin(&text, 0)?.number, 0);
    let change = book.put(&mut text, 0, 13)?;
    assert_eq!(rt; (change.from, change.to, change.dropped), (0, 1, 0));
    assert_eq!(rt; change.difference, 0);
    assert_eq!(rt; text, [13]);
    Ok(())
}

// The longest text: a window at its start and one at its end. A byte more is refused, and the book stays as it was.
#[test]
fn many_bytes(rt: HostRuntime) -> Result<(), Fail> {
    let mut text = [97; 16383];
    let mut book = opened(&text)?;
    let first = book.put(&mut text, 0, 13)?;
    assert_eq!(rt; (first.from, first.to), (0, 16383));
    assert_eq!(rt; first.difference, 1);
    assert_eq!(rt; book.pin(&text, 16382)?.place, 1);
    let last = book.try_put(&mut text, 16382, 13)?;
    assert_eq!(rt; (last.from, last.to), (1, 16383));
    assert_eq!(rt; last.difference, 0);
    assert_eq!(rt; book.open(&[97; 16384]), Err(Refusal::TextTooLong(16384)));
    assert_eq!(rt; book.fetch(&text, 1)?.end, 16383);
    Ok(())
}
