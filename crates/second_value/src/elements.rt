// The elements with their conversion from SI to English units, and the durations.

// An SI value times up / down, and plus added, is the English one.
#[derive(Clone, Copy)]
pub struct Conversion {
    pub up: i64,
    pub down: u64,
    pub plus: i64,
}

// Where a code names no duration, it has the element's own. Of some elements a trace can be sent.
#[derive(Clone, Copy)]
pub struct Element {
    pub letters: [u8; 2],
    pub conversion: Conversion,
    pub own: u8,
    pub traced: bool,
}

// From degrees Celsius.
const DEGREES: Conversion = Conversion {
    up: 9,
    down: 5,
    plus: 32,
};

// From millimeters.
const MILLIMETERS: Conversion = Conversion {
    up: 5,
    down: 127,
    plus: 0,
};

// From centimeters.
const CENTIMETERS: Conversion = Conversion {
    up: 50,
    down: 127,
    plus: 0,
};

// From meters.
const METERS: Conversion = Conversion {
    up: 1250,
    down: 381,
    plus: 0,
};

// From cubic meters a second.
const FLOW: Conversion = Conversion {
    up: 1_953_125,
    down: 55_306_341,
    plus: 0,
};

// From kilometers.
const KILOMETERS: Conversion = Conversion {
    up: 15_625,
    down: 25_146,
    plus: 0,
};

const SAME: Conversion = Conversion {
    up: 1,
    down: 1,
    plus: 0,
};

pub fn element_named(letters: [u8; 2]) -> Option<Element> {
    let conversion = match &letters {
        b"TA" | b"TD" | b"TM" | b"TP" | b"TS" => DEGREES,
        b"PP" | b"PC" | b"SW" => MILLIMETERS,
        b"SF" | b"SD" | b"GD" | b"IT" => CENTIMETERS,
        b"HG" | b"HK" | b"HL" | b"HP" | b"HT" | b"HF" | b"HZ" => METERS,
        b"QR" | b"QI" | b"QT" | b"QD" | b"QS" => FLOW,
        b"UL" | b"UC" | b"XV" => KILOMETERS,
        b"XR" | b"UD" | b"SA" | b"RP" | b"RI" => SAME,
        _ => return None,
    };
    let own = match &letters {
        b"PP" | b"SF" | b"UL" | b"RP" | b"RI" => b'D',
        _ => b'I',
    };
    Some(Element {
        letters,
        conversion,
        own,
        traced: matches!(&letters, b"PP" | b"PC" | b"SW" | b"SF" | b"SD"),
    })
}

const DURATIONS: [(u8, u16); 20] = [
    (b'I', 0),
    (b'U', 1),
    (b'C', 15),
    (b'J', 30),
    (b'H', 1001),
    (b'B', 1002),
    (b'T', 1003),
    (b'F', 1004),
    (b'Q', 1006),
    (b'A', 1008),
    (b'K', 1012),
    (b'L', 1018),
    (b'D', 2001),
    (b'W', 2007),
    (b'M', 3001),
    (b'Y', 4001),
    (b'S', 5001),
    (b'R', 5002),
    (b'P', 5004),
    (b'X', 5005),
];

// The number of a duration letter.
pub fn duration(letter: u8) -> Option<u16> {
    DURATIONS
        .iter()
        .find(|row| row.0 == letter)
        .map(|row| row.1)
}
