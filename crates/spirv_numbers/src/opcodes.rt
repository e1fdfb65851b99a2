// The opcodes of SPIR-V (section 3.52 of the standard, with the extensions that shaders use).

/// Which results an instruction has.
#[derive(Clone, Copy, PartialEq, Eq)]
pub enum Results {
    /// None.
    Nothing,
    /// An id.
    Alone,
    /// An id, and in front of it the id of its type.
    Typed,
}

// The opcodes that have a result with a type: those of the standard itself, then those of extensions, by the first and the
// last of each range.
const TYPED: [(u16, u16); 38] = [
    (1, 1),
    (12, 12),
    (41, 55),
    (57, 61),
    (65, 70),
    (77, 98),
    (100, 215),
    (227, 227),
    (229, 245),
    (259, 259),
    (261, 279),
    (282, 286),
    (291, 296),
    (299, 300),
    (303, 316),
    (318, 318),
    (320, 321),
    (323, 326),
    (328, 328),
    (333, 403),
    (4421, 4432),
    (4447, 4447),
    (4450, 4455),
    (4477, 4479),
    (5000, 5012),
    (5056, 5056),
    (5252, 5255),
    (5257, 5258),
    (5265, 5265),
    (5267, 5278),
    (5283, 5283),
    (5296, 5296),
    (5334, 5334),
    (5340, 5340),
    (5359, 5359),
    (5361, 5362),
    (5381, 5396),
    (6016, 6032),
];

// Those that have a result without one.
const ALONE: [(u16, u16); 11] = [
    (7, 7),
    (11, 11),
    (19, 38),
    (73, 73),
    (248, 248),
    (322, 322),
    (327, 327),
    (4472, 4472),
    (5281, 5281),
    (5341, 5341),
    (5358, 5358),
];

/// Which results the opcode with this number has; one that is not known has none.
pub fn results_of(number: u16) -> Results {
    if is_in(&TYPED, number) {
        Results::Typed
    } else if is_in(&ALONE, number) {
        Results::Alone
    } else {
        Results::Nothing
    }
}

// Whether a number is in one of these ranges.
fn is_in(ranges: &[(u16, u16)], number: u16) -> bool {
    for range in ranges {
        if range.0 <= number && number <= range.1 {
            return true;
        }
    }
    false
}
