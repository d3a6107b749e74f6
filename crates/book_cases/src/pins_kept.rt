use crate::tools::opened;
use refusals::Refusal;
use std::test::Fail;

// Each byte 13 is a run of its own, so every place is a wall.
#[test]
fn sixty_four_pins(rt: HostRuntime) -> Result<(), Fail> {
    let text = [13; 65];
    let mut book = opened(&text)?;
    // the places are the values here, and the numbers too
    for place in 0..64 {
        let pin = book.pin(&text, place)?;
        assert_eq!(rt; (pin.place, pin.number), (place, place));
    }
    assert_eq!(rt; book.pin(&text, 64), Err(Refusal::PinsFull));
    assert_eq!(rt; book.pin(&text, 7)?.number, 7);
    assert_eq!(rt; book.unpin(&text, 3)?, 3);
    assert_eq!(rt; book.unpin(&text, 3), Err(Refusal::NoPin(3)));
    assert_eq!(rt; book.pin(&text, 64)?.number, 64);
    assert_eq!(rt; book.read(&text, 63)?.place, 64);
    assert_eq!(rt; book.read(&text, 64), Err(Refusal::NumberOutside(64)));
    Ok(())
}
