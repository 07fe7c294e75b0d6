//! Acts one after another, with what each makes and what stands then, worked out by hand from the rules.

/// An act: an offer to a party of one letter under another, a retraction of a letter, or a leave.
#[derive(Clone, Copy)]
pub enum Asked {
    Offer(u32, u8, u8),
    Retract(u8),
    Leave,
}

/// A party, its act, the pairs that this makes, and what stands then: for each place a dot without an offer, a hyphen for an
/// open one, else the letter of its partner's place, A for the first.
pub type Row = (u32, Asked, &'static [(u64, u64)], &'static str);

/// Before the first act nothing stands.
pub const NOTHING: &str = "............................";

/// The acts at the places from 1 on.
pub const ROWS: [Row; 28] = [
    (
        1001,
        Asked::Offer(1002, b'X', b'X'),
        &[],
        "-...........................",
    ),
    (
        1002,
        Asked::Offer(1001, b'X', b'X'),
        &[(1, 2)],
        "BA..........................",
    ),
    (
        1003,
        Asked::Offer(1001, b'A', b'X'),
        &[],
        "BA-.........................",
    ),
    (
        1001,
        Asked::Offer(0, b'B', b'Y'),
        &[],
        "BA--........................",
    ),
    (
        1003,
        Asked::Offer(0, b'C', b'Y'),
        &[],
        "BA---.......................",
    ),
    (
        1002,
        Asked::Offer(1001, b'D', b'Y'),
        &[(4, 6)],
        "BA-F-D......................",
    ),
    (
        1002,
        Asked::Offer(1001, b'E', b'Y'),
        &[],
        "BA-F-D-.....................",
    ),
    (
        1003,
        Asked::Offer(1001, b'F', b'Y'),
        &[],
        "BA-F-D--....................",
    ),
    (
        1002,
        Asked::Retract(b'D'),
        &[(4, 7)],
        "BA-G-.D-....................",
    ),
    (
        1001,
        Asked::Offer(1003, b'G', b'X'),
        &[(3, 10)],
        "BAJG-.D-.C..................",
    ),
    (
        1001,
        Asked::Offer(0, b'H', b'X'),
        &[],
        "BAJG-.D-.C-.................",
    ),
    (
        1002,
        Asked::Leave,
        &[(4, 8)],
        "-.JH-..D.C-.................",
    ),
    (
        1003,
        Asked::Retract(b'F'),
        &[],
        "-.J--....C-.................",
    ),
    (1003, Asked::Leave, &[], "-..-.....--................."),
    (
        1001,
        Asked::Offer(0, b'K', b'Z'),
        &[],
        "-..-.....--...-.............",
    ),
    (
        1001,
        Asked::Offer(0, b'L', b'Z'),
        &[],
        "-..-.....--...--............",
    ),
    (
        1004,
        Asked::Offer(1001, b'A', b'Z'),
        &[(15, 17)],
        "-..-.....--...Q-O...........",
    ),
    (
        1004,
        Asked::Offer(1001, b'B', b'Z'),
        &[(16, 18)],
        "-..-.....--...QROP..........",
    ),
    (
        1004,
        Asked::Retract(b'A'),
        &[],
        "-..-.....--...-R.P..........",
    ),
    (
        1004,
        Asked::Offer(1001, b'C', b'Z'),
        &[(15, 20)],
        "-..-.....--...TR.P.O........",
    ),
    (
        20,
        Asked::Offer(1001, b'A', b'Z'),
        &[],
        "-..-.....--...TR.P.O-.......",
    ),
    (
        1005,
        Asked::Offer(1001, b'A', b'Z'),
        &[],
        "-..-.....--...TR.P.O--......",
    ),
    (
        1004,
        Asked::Leave,
        &[(15, 21), (16, 22)],
        "-..-.....--...UV....OP......",
    ),
    (
        1001,
        Asked::Offer(1001, b'M', b'X'),
        &[],
        "-..-.....--...UV....OP.-....",
    ),
    (
        1002,
        Asked::Offer(1001, b'X', b'X'),
        &[(1, 25)],
        "Y..-.....--...UV....OP.-A...",
    ),
    (
        1003,
        Asked::Offer(1001, b'B', b'X'),
        &[(10, 26)],
        "Y..-.....Z-...UV....OP.-AJ..",
    ),
    (
        1002,
        Asked::Offer(1001, b'A', b'Q'),
        &[],
        "Y..-.....Z-...UV....OP.-AJ-.",
    ),
    (
        1004,
        Asked::Offer(1001, b'A', b'Q'),
        &[],
        "Y..-.....Z-...UV....OP.-AJ--",
    ),
];

/// All parties, one without acts too.
pub const PARTIES: [u32; 7] = [10, 20, 1001, 1002, 1003, 1004, 1005];

/// What is asked after an act: of the open offers made to a party the oldest (0: none) and their parties, and the surrogates of
/// those of one party.
pub type Question = (usize, u32, u64, &'static [u32], u32, &'static [u8]);

/// The questions.
pub const QUESTIONS: [Question; 10] = [
    (1, 1002, 1, &[1001], 1001, b"X"),
    (2, 1002, 0, &[], 1001, b""),
    (8, 1001, 3, &[1002, 1003], 1003, b"XY"),
    (8, 1001, 3, &[1002, 1003], 1002, b"Y"),
    (9, 1001, 3, &[1003], 1002, b""),
    (11, 1001, 8, &[1003], 1003, b"Y"),
    (12, 1002, 1, &[1001], 1001, b"X"),
    (22, 1001, 21, &[20, 1005], 1005, b"Z"),
    (24, 1001, 24, &[1001], 1001, b"X"),
    (28, 1001, 24, &[1001, 1002, 1004], 1002, b"Q"),
];

/// After an act the open match of the offer at a place (0: none), which need not be open or stand.
pub const MATCHES: [(usize, u64, u64); 6] = [
    (1, 2, 1),
    (3, 1, 0),
    (8, 4, 7),
    (8, 5, 0),
    (11, 3, 11),
    (22, 16, 21),
];
