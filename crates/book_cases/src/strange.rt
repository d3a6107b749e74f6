use crate::tools::opened;
use std::test::Fail;

// The book's own text has three runs and pins at 3 and 6; the strange one has a single run, or its breaks elsewhere.
const OWN: [u8; 8] = *b"ab\rcd\rxy";

const STRANGE: [u8; 8] = *b"a\rbcdefg";

#[test]
fn asked(rt: HostRuntime) -> Result<(), Fail> {
    let mut book = opened(&OWN)?;
    book.pin(&OWN, 4)?;
    book.pin(&OWN, 7)?;
    // the places are the values here
    for place in 0..8 {
        let run = book.look(&STRANGE, place)?;
        assert!(rt; run.number <= run.start && run.start <= place);
        assert!(rt; place < run.end && run.end <= 8);
    }
    let span = book.fetch(&STRANGE, 2)?;
    assert!(rt; span.start < span.end && span.end <= 8);
    assert_eq!(rt; book.read(&STRANGE, 1)?.place, 6);
    let pin = book.pin(&STRANGE, 5)?;
    assert_eq!(rt; pin.place, 2);
    assert!(rt; pin.number <= 2);
    assert_eq!(rt; book.unpin(&STRANGE, 3)?, 1);
    Ok(())
}

#[test]
fn written(rt: HostRuntime) -> Result<(), Fail> {
    let mut book = opened(&OWN)?;
    book.pin(&OWN, 4)?;
    book.pin(&OWN, 7)?;
    let mut text = STRANGE;
    let tried = book.try_put(&mut text, 5, 13)?;
    assert_eq!(rt; text, STRANGE);
    let change = book.put(&mut text, 5, 13)?;
    assert_eq!(rt; text, *b"a\rbcd\rfg");
    assert_eq!(rt; (change.from, change.to, change.dropped), (2, 8, 1));
    assert_eq!(rt; change.difference, 1);
    assert_eq!(rt; (tried.from, tried.to, tried.dropped), (2, 8, 1));
    assert_eq!(rt; book.read(&text, 0)?.place, 6);
    Ok(())
}
