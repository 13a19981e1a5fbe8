//! Texts, each with what it says. The names are `sum`, `su`, `summa`, `-`, and one of 32 bytes.

/// How lines end.
pub const LINES: [(&str, &str); 14] = [
    ("", "ok"),
    ("\n", "line 1 Shape"),
    ("\r\n", "line 1 Shape"),
    ("sum 00", "ok 0:00"),
    ("sum 00\n", "ok 0:00"),
    ("sum 00\r\n", "ok 0:00"),
    // Of two carriage returns one is dropped, and one at the end of the text stays.
    ("sum 00\r\r\n", "line 1 Hex"),
    ("sum 00\r", "line 1 Hex"),
    ("sum 0\r0\n", "line 1 Hex"),
    ("sum -\r\nsu 01\nsumma -\r\n", "ok 0: 1:01 2:"),
    ("sum 00\n\n", "line 2 Shape"),
    ("sum 00\n\r\nsum 00\n", "line 2 Shape"),
    ("sum 00\nsum 0\nx\n", "line 2 Hex"),
    ("sum 00\r\nsum 00\nxyz 00", "line 3 Name"),
];

/// How many spaces a line has.
pub const SHAPES: [(&str, &str); 9] = [
    ("sum", "line 1 Shape"),
    ("sum00", "line 1 Shape"),
    ("sum\t00", "line 1 Shape"),
    ("sum  00", "line 1 Shape"),
    ("sum 00 ", "line 1 Shape"),
    (" sum 00", "line 1 Shape"),
    ("sum 00 00", "line 1 Shape"),
    // The shape goes before the name, the digits and their number.
    ("xyz 0 0", "line 1 Shape"),
    ("  ", "line 1 Shape"),
];

/// Which function a name is.
pub const NAMES: [(&str, &str); 12] = [
    ("sum 00\n", "ok 0:00"),
    ("su 00\n", "ok 1:00"),
    ("summa 00\n", "ok 2:00"),
    ("- -\n", "ok 3:"),
    ("abcdefghijklmnopqrstuvwxyz-01234 ff\n", "ok 4:ff"),
    ("abcdefghijklmnopqrstuvwxyz-0123 ff\n", "line 1 Name"),
    ("abcdefghijklmnopqrstuvwxyz-012345 ff\n", "line 1 Name"),
    ("summ 00\n", "line 1 Name"),
    ("s 00\n", "line 1 Name"),
    ("Sum 00\n", "line 1 Name"),
    (" 00\n", "line 1 Name"),
    // The name goes before the digits.
    ("xyz 0\n", "line 1 Name"),
];

/// Which packet digits are.
pub const DIGITS: [(&str, &str); 14] = [
    ("sum 0123456789abcdef", "ok 0:0123456789abcdef"),
    ("sum ABCDEFabcdef", "ok 0:abcdefabcdef"),
    ("sum aB", "ok 0:ab"),
    ("sum -", "ok 0:"),
    ("sum ", "line 1 Hex"),
    ("sum 0", "line 1 Hex"),
    ("sum 000", "line 1 Hex"),
    ("sum --", "line 1 Hex"),
    ("sum -0", "line 1 Hex"),
    ("sum 0g", "line 1 Hex"),
    ("sum 0x00", "line 1 Hex"),
    ("sum @a", "line 1 Hex"),
    ("sum /:", "line 1 Hex"),
    ("sum é", "line 1 Hex"),
];
