//! What no clause says: that a block is made where there is memory, and that it is freed.

use am_block::{Block, List};

const ROUND: [List; 7] = [
    List::Free,
    List::Requests,
    List::Replies,
    List::InFlight,
    List::Notices,
    List::Received,
    List::Free,
];

// Whether these are the slots of a list, front first.
fn is_list(block: &Block, list: List, plain: &[u8]) -> bool {
    let mut next = block.front(list);
    for wanted in plain {
        let Some(slot) = next else {
            return false;
        };
        if slot.0 != *wanted {
            return false;
        }
        next = block.after(slot);
    }
    next.is_none()
}

// Moves each slot of a list on to another, always the second or else its only one. Beside it a plain list is parted into those that have
// gone and the others, which both lists are compared with at every move.
fn go_on(block: &mut Block, plain: &mut [u8; 128], from: List, to: List) -> bool {
    for gone in 0..128_usize {
        let Some(first) = block.front(from) else {
            return false;
        };
        block.move_slot(block.after(first).unwrap_or(first), to);
        if gone < 127 {
            plain.swap(gone, gone + 1);
        }
        if !is_list(block, to, &plain[..gone + 1]) || !is_list(block, from, &plain[gone + 1..]) {
            return false;
        }
    }
    true
}

#[test]
fn goes_round(rt: HostRuntime) {
    let mut block = Block::new(rt.alloc(), 128).expect(&rt, "a block");
    let mut plain = [0; 128];
    for slot in 0..128_u8 {
        plain[slot as usize] = slot;
    }
    assert!(rt; is_list(&block, List::Free, &plain));
    for step in 0..6 {
        assert!(rt; go_on(&mut block, &mut plain, ROUND[step], ROUND[step + 1]));
    }
}

// The front of each list goes on to the next, until each of the six has slots; then the block ends.
#[test]
fn ends_with_slots_in_every_list(rt: HostRuntime) {
    let mut block = Block::new(rt.alloc(), 128).expect(&rt, "a block");
    for step in 0..5 {
        for _ in 0..120 - 20 * step {
            let _ = block.move_front(ROUND[step], ROUND[step + 1]);
        }
    }
    for (list, wanted) in [
        (List::Free, 8),
        (List::Requests, 20),
        (List::Replies, 20),
        (List::InFlight, 20),
        (List::Notices, 20),
        (List::Received, 40),
    ] {
        assert!(rt; block.len(list) == wanted);
    }
}
