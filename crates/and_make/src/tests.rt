//! One input, made with ample memory: where ticks and the move of a VM stand in the script, and what no word changes of a frame.

use crate::make;
use and_events::Item;
use and_policy::Entry;
use std::test::Fail;

/// Items of the script for 300 packets, by their places: 51 items stand before the first send.
const PLACES: [(usize, Item); 9] = [
    (50, Item::Wait),
    (51, Item::Send { frames: Some(1) }),
    (115, Item::Entry(Entry::Tick)),
    (180, Item::Entry(Entry::Tick)),
    (245, Item::Entry(Entry::Tick)),
    (304, Item::Blackout { vm: 0, host: 1 }),
    (311, Item::Entry(Entry::Tick)),
    (355, Item::Send { frames: Some(1) }),
    (356, Item::Resume { vm: 0 }),
];

#[test]
fn items_stand_after_their_packets(rt: HostRuntime) -> Result<(), Fail> {
    let (scenario, _) = make(rt.alloc(), 300).ok().ok_or("there is memory")?;
    assert_eq!(rt; scenario.items.len(), 357);
    for (place, item) in PLACES {
        assert!(rt; scenario.items.get(place) == Some(&item), "at {place}");
    }
    Ok(())
}

#[test]
fn frames_are_whole(rt: HostRuntime) -> Result<(), Fail> {
    let (scenario, capture) = make(rt.alloc(), 300).ok().ok_or("there is memory")?;
    let last = scenario.names.get(39).ok_or("there is a last name")?;
    assert!(rt; last.as_bytes() == b"v39".as_slice());
    assert_eq!(rt; capture.frames.len(), 300);
    for (i, taken) in capture.frames.as_slice().iter().enumerate() {
        let bytes = taken.frame.as_bytes();
        assert!(rt; bytes.len() >= 54 && bytes.len() <= 453);
        assert_eq!(rt;
            (taken.seconds as usize, taken.original as usize),
            (i, bytes.len())
        );
        assert_eq!(rt;
            (bytes[12], bytes[14], bytes[22], bytes[23], bytes[46]),
            (8, 0x45, 64, 6, 0x50)
        );
    }
    Ok(())
}
