//! The calls of the day: a small campus is built and walked through, and some calls are refused.
use crate::asks::{clear, copy, get, head, new, peek, put, same, set};
use life::Call;

/// The header of a room.
const ROOM: u32 = 1;

/// The header of a rack.
const RACK: u32 = 2;

/// The header of a panel.
const PANEL: u32 = 3;

/// The header of a port.
const PORT: u32 = 4;

/// The header of a cable.
const CABLE: u32 = 5;

/// The header of a label, with the number 7 in its free bits.
const LABEL: u32 = 6 + 256 * 7;

/// How many calls there are, and so how many answers there is an array for.
pub const COUNT: usize = 62;

/// The calls, in order.
pub fn calls() -> [Call; COUNT] {
    [
        // Two rooms, 101 and then 102, at roots 0 and 1.
        new(0, ROOM),
        new(1, ROOM),
        same(0, 1),
        put(0, 3, 101),
        put(1, 3, 102),
        set(0, 2, 1),
        // A rack in each, at roots 2 and 3.
        new(2, RACK),
        set(2, 3, 0),
        set(0, 1, 2),
        put(2, 4, 42),
        new(3, RACK),
        set(3, 3, 1),
        set(1, 1, 3),
        put(3, 4, 24),
        // A panel in the first rack, at root 4.
        new(4, PANEL),
        set(4, 3, 2),
        set(2, 1, 4),
        put(4, 4, 7),
        // Its two ports, at roots 5 and 6.
        new(5, PORT),
        set(5, 2, 4),
        put(5, 3, 1),
        set(4, 1, 5),
        new(6, PORT),
        set(6, 2, 4),
        put(6, 3, 2),
        set(5, 1, 6),
        // A cable of five metres between them, at root 7.
        new(7, CABLE),
        set(7, 1, 5),
        set(7, 2, 6),
        set(5, 4, 7),
        set(6, 4, 7),
        put(7, 3, 500),
        put(7, 4, 6),
        // A label, at root 8.
        new(8, LABEL),
        head(8),
        put(8, 1, 2026),
        put(8, 2, 11),
        // From the first room to the cable, at root 9, and on to its second port, at root 10.
        copy(0, 9),
        get(9, 1, 9),
        get(9, 1, 9),
        get(9, 1, 9),
        get(9, 4, 9),
        same(7, 9),
        peek(9, 3),
        get(9, 2, 10),
        same(6, 10),
        same(5, 10),
        peek(10, 3),
        // Room 102 has no next room, so root 11 becomes nil, and root 12 was never set.
        get(1, 2, 11),
        same(11, 12),
        same(1, 11),
        // The cable is still held by root 7.
        clear(9),
        peek(7, 3),
        // There is no root 64.
        new(64, ROOM),
        copy(0, 64),
        // Root 9 is nil.
        head(9),
        get(9, 1, 10),
        // A room has its number at position 3 and a reference at position 1, and a label ends before position 3.
        set(0, 3, 1),
        peek(0, 1),
        put(8, 3, 1),
        // No kind has the number 7.
        new(13, 7),
        same(12, 13),
    ]
}
