// The small rules of document 01, rule C, whose Reach takes more than one round, and those of the lower states in which a tree
// can end.

// Rule A, the bytes of its file.
pub const RULE_A: [u8; 47] = [
    5, 0, 0, 0, 1, 0, 3, 0, 0, 2, 0, 6, 0, 0, 0, 2, 0, 0, 1, 1, 1, 2, 255, 9, 0, 0, 0, 3, 0, 0, 2,
    0, 1, 1, 1, 2, 2, 255, 3, 0, 0, 0, 4, 0, 1, 0, 2,
];

// Rule A with a byte after its fourth record.
pub fn longer_a() -> [u8; 48] {
    let mut file = [0; 48];
    file[..47].copy_from_slice(&RULE_A);
    file
}

// Rule B.
pub const RULE_B: [u8; 44] = [
    5, 0, 0, 0, 1, 0, 3, 0, 1, 1, 0, 3, 0, 0, 0, 2, 0, 2, 2, 2, 9, 0, 0, 0, 3, 0, 255, 255, 0, 255,
    255, 255, 255, 255, 255, 3, 0, 0, 0, 4, 0, 2, 0, 1,
];

// Rule C: n 3, k 1, initial 0, tree start none; letter moves 1 2 2; tree move of 0 and 2 is 1, all others none.
pub const RULE_C: [u8; 44] = [
    5, 0, 0, 0, 1, 0, 3, 0, 255, 1, 0, 3, 0, 0, 0, 2, 0, 1, 2, 2, 9, 0, 0, 0, 3, 0, 255, 255, 1,
    255, 255, 255, 255, 255, 255, 3, 0, 0, 0, 4, 0, 0, 1, 2,
];

// A rule of one state and one letter, whose moves stay.
pub const RULE_OF_ONE: [u8; 32] = [
    5, 0, 0, 0, 1, 0, 1, 0, 0, 1, 0, 1, 0, 0, 0, 2, 0, 0, 1, 0, 0, 0, 3, 0, 0, 1, 0, 0, 0, 4, 0, 2,
];

// Three states with no move at all and no tree start.
pub const RULE_OF_NONE: [u8; 44] = [
    5, 0, 0, 0, 1, 0, 3, 0, 255, 1, 0, 3, 0, 0, 0, 2, 0, 255, 255, 255, 9, 0, 0, 0, 3, 0, 255, 255,
    255, 255, 255, 255, 255, 255, 255, 3, 0, 0, 0, 4, 0, 0, 1, 2,
];

// Two states whose letters stay and whose trees do not, and no tree start: no tree move counts in Reach, but hold asks for them.
pub const RULE_NO_START: [u8; 37] = [
    5, 0, 0, 0, 1, 0, 2, 0, 255, 1, 0, 2, 0, 0, 0, 2, 0, 0, 1, 4, 0, 0, 0, 3, 0, 1, 0, 0, 1, 2, 0,
    0, 0, 4, 0, 1, 2,
];

// Tree start 0, a letter leads from 0 to 1, and a tree move of 0 waits for lower state 1: it leads to 2, for which a tree move of 1
// waits.
pub const RULE_MET_LATER: [u8; 44] = [
    5, 0, 0, 0, 1, 0, 3, 0, 0, 1, 0, 3, 0, 0, 0, 2, 0, 1, 255, 255, 9, 0, 0, 0, 3, 0, 255, 2, 255,
    255, 255, 0, 255, 255, 255, 3, 0, 0, 0, 4, 0, 2, 2, 2,
];

// States 0 outside of trees and 1 inside them, and the spare state 2, in which no tree can end: letter 2 stays, letter 3 leads from 0
// to 1, and each tree move keeps its upper state, but with lower state 2 all lead to 2.
pub const RULE_WITH_SPARE: [u8; 47] = [
    5, 0, 0, 0, 1, 0, 3, 0, 1, 2, 0, 6, 0, 0, 0, 2, 0, 0, 1, 1, 1, 2, 2, 9, 0, 0, 0, 3, 0, 255, 0,
    2, 255, 1, 2, 2, 2, 2, 3, 0, 0, 0, 4, 0, 2, 1, 0,
];
