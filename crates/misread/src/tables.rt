// Decks by their lines, each with its name.

// A deck's name, and its lines.
pub type Row = (&'static str, &'static [&'static str]);

// A small deck: one event, one site, and a plant and a specification of one state.
const HEADER: &str = "01010100000000";

const SITE: &str = "02010000000000000000";

const PLANT: &str = "0300010000000001";

const SPEC: &str = "0301010000000001";

// Headers with two events and with two sites.
const TWO_EVENTS: &str = "01020100000000";

const TWO_SITES: &str = "01010200000000";

// More frames.
const STEP: &str = "0400000000";

const SPEC_STEP: &str = "0401000000";

const COUNTER: &str = "05000101";

pub const PLAY: &str = "0600";

// Three events and two sites, of which each sees one event of its own and both control the third.
pub const WORKED: [&str; 13] = [
    "01030200000000",
    "02010000000100000004",
    "02020000000200000004",
    "0300040000000007",
    "0400000001",
    "0400000102",
    "0400000203",
    "0400010203",
    "0400020203",
    "0301020000000007",
    "0401000001",
    "0401000101",
    "0401010201",
];

// Decks with no fault.
const SOUND: &[Row] = &[
    ("worked example", &WORKED),
    ("small deck", &[HEADER, SITE, PLANT, SPEC]),
    (
        "largest counts",
        &[
            "012004FFFFFFFF",
            "0201FFFFFFFFFFFFFFFF",
            "0202FFFFFFFFFFFFFFFF",
            "0203FFFFFFFFFFFFFFFF",
            "0204FFFFFFFFFFFFFFFF",
            "0300403FFFFFFFFF",
            "0301403FFFFFFFFF",
        ],
    ),
    (
        "counter to 63",
        &[TWO_EVENTS, SITE, PLANT, "0500013F", SPEC],
    ),
    ("any event to play", &[HEADER, SITE, PLANT, SPEC, "06FF"]),
    (
        "steps of both",
        &[HEADER, SITE, PLANT, STEP, SPEC, SPEC_STEP, PLAY, PLAY],
    ),
];

// Faults of the line layer at the first line.
const LINE_FAULTS: &[Row] = &[
    ("one digit", &["0"]),
    ("odd count", &["010"]),
    (
        "66 digits",
        &["010000000000000000000000000000000000000000000000000000000000000000"],
    ),
    ("lower case", &["0a"]),
    ("G", &["0G"]),
    ("space within", &["01 01"]),
    ("space before", &[" 01010100000000"]),
    ("colon, which follows 9", &["0:"]),
    ("at sign, before A", &["0@"]),
    ("empty first line", &["", SITE]),
    ("carriage return at first line", &["01010100000000\r", SITE]),
];

// Faults of the line layer at later lines.
const LATER_LINES: &[Row] = &[
    ("empty third line", &[HEADER, SITE, "", PLANT, SPEC]),
    ("empty last line", &[HEADER, SITE, PLANT, SPEC, ""]),
    (
        "carriage return at last line",
        &[HEADER, SITE, PLANT, "0301010000000001\r"],
    ),
    (
        "one digit at last line",
        &[HEADER, SITE, PLANT, SPEC, PLAY, "6"],
    ),
    (
        "64 digits are a line",
        &["0000000000000000000000000000000000000000000000000000000000000000"],
    ),
];

// Unknown kinds and wrong lengths.
const KINDS: &[Row] = &[
    ("kind 00", &["00"]),
    ("kind FF", &["FF00"]),
    ("kind 07 at last line", &[HEADER, SITE, PLANT, SPEC, "0700"]),
    ("kind 10", &[HEADER, "10010000000000000000"]),
    ("header short", &["010101000000"]),
    ("header long", &["0101010000000000"]),
    ("site short", &[HEADER, "020100000000000000"]),
    ("table long", &[HEADER, SITE, "030001000000000100"]),
    ("step short", &[HEADER, SITE, PLANT, "04000000"]),
    ("counter long", &[TWO_EVENTS, SITE, PLANT, "0500010100"]),
    (
        "play long at last line",
        &[HEADER, SITE, PLANT, SPEC, "060000"],
    ),
    ("play of wrong length where none is due", &["060000"]),
];

// Kinds that are not due.
const ORDER: &[Row] = &[
    ("site first", &[SITE]),
    ("second header", &[HEADER, HEADER]),
    ("table before the last site", &[TWO_SITES, SITE, PLANT]),
    ("a site too many", &[HEADER, SITE, "02020000000000000000"]),
    ("step before a table", &[HEADER, SITE, STEP]),
    ("counter before a table", &[TWO_EVENTS, SITE, COUNTER]),
    (
        "play before the specification",
        &[HEADER, SITE, PLANT, PLAY],
    ),
    (
        "step after the counter",
        &[TWO_EVENTS, SITE, PLANT, COUNTER, STEP],
    ),
    (
        "second counter",
        &[TWO_EVENTS, SITE, PLANT, COUNTER, COUNTER],
    ),
    (
        "counter after the specification",
        &[TWO_EVENTS, SITE, PLANT, SPEC, COUNTER],
    ),
    ("second specification", &[HEADER, SITE, PLANT, SPEC, SPEC]),
    (
        "step after a play",
        &[HEADER, SITE, PLANT, SPEC, PLAY, SPEC_STEP],
    ),
];

// Values of headers and sites out of range.
const HEADER_VALUES: &[Row] = &[
    ("no event", &["01000100000000"]),
    ("33 events", &["01210100000000"]),
    ("no site", &["01010000000000"]),
    ("5 sites", &["01010500000000"]),
    ("site 0", &[HEADER, "02000000000000000000"]),
    ("site 2 first", &[TWO_SITES, "02020000000000000000"]),
    ("site 1 twice", &[TWO_SITES, SITE, SITE]),
];

// Values of tables out of range.
const TABLE_VALUES: &[Row] = &[
    ("plant of role 1", &[HEADER, SITE, SPEC]),
    ("table of role 2", &[HEADER, SITE, "0302010000000001"]),
    ("no state", &[HEADER, SITE, "0300000000000001"]),
    ("65 states", &[HEADER, SITE, "0300410000000001"]),
    (
        "first state at the count",
        &[HEADER, SITE, "0300010100000001"],
    ),
    (
        "alphabet past the events",
        &[HEADER, SITE, "0300010000000002"],
    ),
    ("specification of role 0", &[HEADER, SITE, PLANT, PLANT]),
    (
        "specification of role 0 after the counter",
        &[TWO_EVENTS, SITE, PLANT, COUNTER, PLANT],
    ),
];

// Values of steps and counters out of range.
const STEP_VALUES: &[Row] = &[
    (
        "step of role 1 in the plant",
        &[HEADER, SITE, PLANT, SPEC_STEP],
    ),
    (
        "step of role 0 in the specification",
        &[HEADER, SITE, PLANT, SPEC, STEP],
    ),
    ("step from the count", &[HEADER, SITE, PLANT, "0400010000"]),
    ("step to the count", &[HEADER, SITE, PLANT, "0400000001"]),
    (
        "step on an event outside the alphabet",
        &[TWO_EVENTS, SITE, PLANT, "0400000100"],
    ),
    ("step on event 32", &[HEADER, SITE, PLANT, "0400002000"]),
    (
        "counter up and down alike",
        &[TWO_EVENTS, SITE, PLANT, "05000001"],
    ),
    (
        "counter up past the events",
        &[TWO_EVENTS, SITE, PLANT, "05020101"],
    ),
    (
        "counter down past the events",
        &[TWO_EVENTS, SITE, PLANT, "05000201"],
    ),
    ("counter to 0", &[TWO_EVENTS, SITE, PLANT, "05000100"]),
    ("counter to 64", &[TWO_EVENTS, SITE, PLANT, "05000140"]),
];

// Second steps, decks that end too soon, and the first of several faults.
const ENDS: &[Row] = &[
    (
        "second step of the plant",
        &[HEADER, SITE, PLANT, STEP, STEP],
    ),
    (
        "second step of the specification",
        &[HEADER, SITE, PLANT, SPEC, SPEC_STEP, SPEC_STEP],
    ),
    (
        "second step to the count",
        &[HEADER, SITE, PLANT, STEP, "0400000001"],
    ),
    ("header alone", &[HEADER]),
    ("no plant", &[HEADER, SITE]),
    ("no specification", &[HEADER, SITE, PLANT]),
    (
        "no specification after the counter",
        &[TWO_EVENTS, SITE, PLANT, COUNTER],
    ),
    ("two faults", &[HEADER, "07", SITE, "0"]),
];

// All of them.
pub const TABLES: [&[Row]; 9] = [
    SOUND,
    LINE_FAULTS,
    LATER_LINES,
    KINDS,
    ORDER,
    HEADER_VALUES,
    TABLE_VALUES,
    STEP_VALUES,
    ENDS,
];
