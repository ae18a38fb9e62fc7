// Each text with what reading it answers, as Python's json module and a count of its brackets say.
use super::Answer;

// Words, white space and what stands beside them.
pub(super) static WORDS: [(&[u8], Answer); 20] = [
    (b"", Answer::Text),
    (b" ", Answer::Text),
    (b"\t\n\r ", Answer::Text),
    (b"null", Answer::Fine),
    (b" null ", Answer::Fine),
    (b"\r\n\ttrue\t", Answer::Fine),
    (b"false", Answer::Fine),
    (b"nul", Answer::Text),
    (b"nulll", Answer::Text),
    (b"True", Answer::Text),
    (b"null null", Answer::Text),
    (b"null\x0c", Answer::Text),
    (b"\x0bnull", Answer::Text),
    (b"tru e", Answer::Text),
    (b"truefalse", Answer::Text),
    (b"/**/null", Answer::Text),
    (b"\xc2\xa0null", Answer::Text),
    (b"null\x00", Answer::Text),
    (b"NaN", Answer::Text),
    (b"-Infinity", Answer::Text),
];

// Numbers.
pub(super) static NUMBERS: [(&[u8], Answer); 29] = [
    (b"0", Answer::Fine),
    (b"-0", Answer::Fine),
    (b"10", Answer::Fine),
    (b"-12.50", Answer::Fine),
    (b"1e5", Answer::Fine),
    (b"1E+05", Answer::Fine),
    (b"0.1e-0", Answer::Fine),
    (b"123456789012345678901234567890", Answer::Fine),
    (b"01", Answer::Text),
    (b"-", Answer::Text),
    (b"-01", Answer::Text),
    (b"+1", Answer::Text),
    (b"1.", Answer::Text),
    (b".5", Answer::Text),
    (b"1.e3", Answer::Text),
    (b"1e", Answer::Text),
    (b"1e+", Answer::Text),
    (b"0x10", Answer::Text),
    (b"1 2", Answer::Text),
    (b"--1", Answer::Text),
    (b"1_0", Answer::Text),
    (b"0e", Answer::Text),
    (b"1.5.5", Answer::Text),
    (b"[1e3,0,-0.0]", Answer::Fine),
    (b"[0 ,1]", Answer::Fine),
    (b"[01]", Answer::Text),
    (b"1a", Answer::Text),
    (b"[-]", Answer::Text),
    (b"2.0E-7 ", Answer::Fine),
];

// Strings.
pub(super) static TEXTS: [(&[u8], Answer); 38] = [
    (b"\"\"", Answer::Fine),
    (b"\"a\"", Answer::Fine),
    (b"\"\xc3\xa9\xf0\x9f\x98\x80\"", Answer::Fine),
    (b"\"\\\"\\\\\\/\\b\\f\\n\\r\\t\"", Answer::Fine),
    (b"\"\\u0041\\u00e9\\u20AC\"", Answer::Fine),
    (b"\"\\ud83d\\ude00\"", Answer::Fine),
    (b"\"\\ud83d\"", Answer::Fine),
    (b"\"\\ude00\\ud83d\"", Answer::Fine),
    (b"\"\\ud83d\\ud83d\\ude00\"", Answer::Fine),
    (b"\"\\ud83d\\n\"", Answer::Fine),
    (b"\"\\ud83dx\"", Answer::Fine),
    (b"\"\\u0000\"", Answer::Fine),
    (b"\"\x7f\"", Answer::Fine),
    (b"\"", Answer::Text),
    (b"'a'", Answer::Text),
    (b"\"\\x41\"", Answer::Text),
    (b"\"\\u12g4\"", Answer::Text),
    (b"\"\\u123\"", Answer::Text),
    (b"\"\\u\"", Answer::Text),
    (b"\"\\ud83d\\u12\"", Answer::Text),
    (b"\"\\\"", Answer::Text),
    (b"\"\\a\"", Answer::Text),
    (b"\"a\nb\"", Answer::Text),
    (b"\"\t\"", Answer::Text),
    (b"\"\x1f\"", Answer::Text),
    (b"\"a\" \"b\"", Answer::Text),
    (b"\"a", Answer::Text),
    (b"\"\\u00 1\"", Answer::Text),
    (b"a\"", Answer::Text),
    (b"\"\\U0041\"", Answer::Text),
    (b"\"\xff\"", Answer::Text),
    (b"\"\xc3\"", Answer::Text),
    (b"\"\xc0\xaf\"", Answer::Text),
    (b"\"\xed\xa0\x80\"", Answer::Text),
    (b"\"\xf4\x90\x80\x80\"", Answer::Text),
    (b"\"\xe2\x82\xac\"", Answer::Fine),
    (b"\xff", Answer::Text),
    (b"[\"\x80\"]", Answer::Text),
];

// Lists.
pub(super) static LISTS: [(&[u8], Answer); 19] = [
    (b"[]", Answer::Fine),
    (b"[ ]", Answer::Fine),
    (b"[1]", Answer::Fine),
    (b"[1,2, 3]", Answer::Fine),
    (b"[[],[[]],{}]", Answer::Fine),
    (b"[1,]", Answer::Text),
    (b"[,1]", Answer::Text),
    (b"[,]", Answer::Text),
    (b"[1 2]", Answer::Text),
    (b"[1,,2]", Answer::Text),
    (b"[", Answer::Text),
    (b"[1", Answer::Text),
    (b"[1,", Answer::Text),
    (b"]", Answer::Text),
    (b"[]]", Answer::Text),
    (b"[}", Answer::Text),
    (b"[1}", Answer::Text),
    (b"[[]", Answer::Text),
    (b"[ \"a\" , null ]", Answer::Fine),
];

// Objects.
pub(super) static OBJECTS: [(&[u8], Answer); 27] = [
    (b"{}", Answer::Fine),
    (b"{ }", Answer::Fine),
    (b"{\"a\":1}", Answer::Fine),
    (b"{\"a\":1,\"a\":2}", Answer::Fine),
    (b" { \"a\" : [ ] , \"b\" : {\"\":null} } ", Answer::Fine),
    (b"{\"\":0}", Answer::Fine),
    (b"{\"a\":}", Answer::Text),
    (b"{\"a\"}", Answer::Text),
    (b"{\"a\" 1}", Answer::Text),
    (b"{:1}", Answer::Text),
    (b"{a:1}", Answer::Text),
    (b"{1:1}", Answer::Text),
    (b"{\"a\":1,}", Answer::Text),
    (b"{,}", Answer::Text),
    (b"{\"a\":1 \"b\":2}", Answer::Text),
    (b"{", Answer::Text),
    (b"{\"a\":", Answer::Text),
    (b"{\"a\":1", Answer::Text),
    (b"}", Answer::Text),
    (b"{]", Answer::Text),
    (b"{\"a\":1]", Answer::Text),
    (b"{\"a\":[}", Answer::Text),
    (b"{\"a\":1}}", Answer::Text),
    (b"{\"a\"::1}", Answer::Text),
    (b"{null:1}", Answer::Text),
    (b"{\"\\u0061\":1,\"a\\n\":\"\\t\"}", Answer::Fine),
    (b"{\"a\":1;\"b\":2}", Answer::Text),
];

// Byte order marks, and what is none.
pub(super) static MARKS: [(&[u8], Answer); 7] = [
    (b"\xef\xbb\xbf[]", Answer::Fine),
    (b"\xef\xbb\xbf {} ", Answer::Fine),
    (b"\xef\xbb\xbf\xef\xbb\xbf[]", Answer::Text),
    (b"\xef\xbb\xbf", Answer::Text),
    (b" \xef\xbb\xbf1", Answer::Text),
    (b"\xef\xbb", Answer::Text),
    (b"\xfe\xff\x001", Answer::Text),
];

// Lists and objects within each other, at the greatest depth and past it.
pub(super) static DEPTHS: [(&[u8], Answer); 18] = [
    (
        b"[[[[[[[[[[[[[[[[[[[[[[[[[[[[[[[[[[[[[[[[[[[[[[[[[[[[[[[[[[[[[[[[]]]]]]]]]]]]]]]]]]]]]]]]]]]]]]]]]]]]]]]]]]]]]]]]]]]]]]]]]]]]]]]]",
        Answer::Fine,
    ),
    (
        b"[[[[[[[[[[[[[[[[[[[[[[[[[[[[[[[[[[[[[[[[[[[[[[[[[[[[[[[[[[[[[[[[[]]]]]]]]]]]]]]]]]]]]]]]]]]]]]]]]]]]]]]]]]]]]]]]]]]]]]]]]]]]]]]]]]",
        Answer::Deep,
    ),
    (
        b"[[[[[[[[[[[[[[[[[[[[[[[[[[[[[[[[[[[[[[[[[[[[[[[[[[[[[[[[[[[[[[[[[",
        Answer::Text,
    ),
    (
        b"[[[[[[[[[[[[[[[[[[[[[[[[[[[[[[[[[[[[[[[[[[[[[[[[[[[[[[[[[[[[[[[[[]]]]]]]]]]]]]]]]]]]]]]]]]]]]]]]]]]]]]]]]]]]]]]]]]]]]]]]]]]]]]]]]",
        Answer::Text,
    ),
    (
        b"[[[[[[[[[[[[[[[[[[[[[[[[[[[[[[[[[[[[[[[[[[[[[[[[[[[[[[[[[[[[[[[[[}]]]]]]]]]]]]]]]]]]]]]]]]]]]]]]]]]]]]]]]]]]]]]]]]]]]]]]]]]]]]]]]]",
        Answer::Text,
    ),
    (
        b"[[[[[[[[[[[[[[[[[[[[[[[[[[[[[[[[[[[[[[[[[[[[[[[[[[[[[[[[[[[[[[[[[1,]]]]]]]]]]]]]]]]]]]]]]]]]]]]]]]]]]]]]]]]]]]]]]]]]]]]]]]]]]]]]]]]]",
        Answer::Text,
    ),
    (
        b"[[[[[[[[[[[[[[[[[[[[[[[[[[[[[[[[[[[[[[[[[[[[[[[[[[[[[[[[[[[[[[[[[1 2]]]]]]]]]]]]]]]]]]]]]]]]]]]]]]]]]]]]]]]]]]]]]]]]]]]]]]]]]]]]]]]]]",
        Answer::Text,
    ),
    (
        b"{\"a\":{\"a\":{\"a\":{\"a\":{\"a\":{\"a\":{\"a\":{\"a\":{\"a\":{\"a\":{\"a\":{\"a\":{\"a\":{\"a\":{\"a\":{\"a\":{\"a\":{\"a\":{\"a\":{\"a\":{\"a\":{\"a\":{\"a\":{\"a\":{\"a\":{\"a\":{\"a\":{\"a\":{\"a\":{\"a\":{\"a\":{\"a\":{\"a\":{\"a\":{\"a\":{\"a\":{\"a\":{\"a\":{\"a\":{\"a\":{\"a\":{\"a\":{\"a\":{\"a\":{\"a\":{\"a\":{\"a\":{\"a\":{\"a\":{\"a\":{\"a\":{\"a\":{\"a\":{\"a\":{\"a\":{\"a\":{\"a\":{\"a\":{\"a\":{\"a\":{\"a\":{\"a\":{\"a\":{\"a\":1}}}}}}}}}}}}}}}}}}}}}}}}}}}}}}}}}}}}}}}}}}}}}}}}}}}}}}}}}}}}}}}}",
        Answer::Fine,
    ),
    (
        b"{\"a\":{\"a\":{\"a\":{\"a\":{\"a\":{\"a\":{\"a\":{\"a\":{\"a\":{\"a\":{\"a\":{\"a\":{\"a\":{\"a\":{\"a\":{\"a\":{\"a\":{\"a\":{\"a\":{\"a\":{\"a\":{\"a\":{\"a\":{\"a\":{\"a\":{\"a\":{\"a\":{\"a\":{\"a\":{\"a\":{\"a\":{\"a\":{\"a\":{\"a\":{\"a\":{\"a\":{\"a\":{\"a\":{\"a\":{\"a\":{\"a\":{\"a\":{\"a\":{\"a\":{\"a\":{\"a\":{\"a\":{\"a\":{\"a\":{\"a\":{\"a\":{\"a\":{\"a\":{\"a\":{\"a\":{\"a\":{\"a\":{\"a\":{\"a\":{\"a\":{\"a\":{\"a\":{\"a\":{\"a\":{}}}}}}}}}}}}}}}}}}}}}}}}}}}}}}}}}}}}}}}}}}}}}}}}}}}}}}}}}}}}}}}}}",
        Answer::Deep,
    ),
    (
        b"{\"a\":{\"a\":{\"a\":{\"a\":{\"a\":{\"a\":{\"a\":{\"a\":{\"a\":{\"a\":{\"a\":{\"a\":{\"a\":{\"a\":{\"a\":{\"a\":{\"a\":{\"a\":{\"a\":{\"a\":{\"a\":{\"a\":{\"a\":{\"a\":{\"a\":{\"a\":{\"a\":{\"a\":{\"a\":{\"a\":{\"a\":{\"a\":{\"a\":{\"a\":{\"a\":{\"a\":{\"a\":{\"a\":{\"a\":{\"a\":{\"a\":{\"a\":{\"a\":{\"a\":{\"a\":{\"a\":{\"a\":{\"a\":{\"a\":{\"a\":{\"a\":{\"a\":{\"a\":{\"a\":{\"a\":{\"a\":{\"a\":{\"a\":{\"a\":{\"a\":{\"a\":{\"a\":{\"a\":{\"a\":{\"a\":",
        Answer::Text,
    ),
    (
        b"{\"a\":{\"a\":{\"a\":{\"a\":{\"a\":{\"a\":{\"a\":{\"a\":{\"a\":{\"a\":{\"a\":{\"a\":{\"a\":{\"a\":{\"a\":{\"a\":{\"a\":{\"a\":{\"a\":{\"a\":{\"a\":{\"a\":{\"a\":{\"a\":{\"a\":{\"a\":{\"a\":{\"a\":{\"a\":{\"a\":{\"a\":{\"a\":{\"a\":{\"a\":{\"a\":{\"a\":{\"a\":{\"a\":{\"a\":{\"a\":{\"a\":{\"a\":{\"a\":{\"a\":{\"a\":{\"a\":{\"a\":{\"a\":{\"a\":{\"a\":{\"a\":{\"a\":{\"a\":{\"a\":{\"a\":{\"a\":{\"a\":{\"a\":{\"a\":{\"a\":{\"a\":{\"a\":{\"a\":{\"a\":{\"a\":1}}}}}}}}}}}}}}}}}}}}}}}}}}}}}}}}}}}}}}}}}}}}}}}}}}}}}}}}}}}}}}}}]",
        Answer::Text,
    ),
    (
        b"[{\"\":[{\"\":[{\"\":[{\"\":[{\"\":[{\"\":[{\"\":[{\"\":[{\"\":[{\"\":[{\"\":[{\"\":[{\"\":[{\"\":[{\"\":[{\"\":[{\"\":[{\"\":[{\"\":[{\"\":[{\"\":[{\"\":[{\"\":[{\"\":[{\"\":[{\"\":[{\"\":[{\"\":[{\"\":[{\"\":[{\"\":[{\"\":[{\"\":\"]}\"}]}]}]}]}]}]}]}]}]}]}]}]}]}]}]}]}]}]}]}]}]}]}]}]}]}]}]}]}]}]}]}]}]",
        Answer::Deep,
    ),
    (
        b"[{\"\":[{\"\":[{\"\":[{\"\":[{\"\":[{\"\":[{\"\":[{\"\":[{\"\":[{\"\":[{\"\":[{\"\":[{\"\":[{\"\":[{\"\":[{\"\":[{\"\":[{\"\":[{\"\":[{\"\":[{\"\":[{\"\":[{\"\":[{\"\":[{\"\":[{\"\":[{\"\":[{\"\":[{\"\":[{\"\":[{\"\":[{\"\":[{\"\":\"]}}]}]}]}]}]}]}]}]}]}]}]}]}]}]}]}]}]}]}]}]}]}]}]}]}]}]}]}]}]}]}]}]}]",
        Answer::Text,
    ),
    (
        b"[[[[[[[[[[[[[[[[[[[[[[[[[[[[[[[[[[[[[[[[[[[[[[[[[[[[[[[[[[[[[[[[[]]]]]]]]]]]]]]]]]]]]]]]]]]]]]]]]]]]]]]]]]]]]]]]]]]]]]]]]]]]]]]]]]x",
        Answer::Text,
    ),
    (
        b"[[[[[[[[[[[[[[[[[[[[[[[[[[[[[[[[[[[[[[[[[[[[[[[[[[[[[[[[[[[[[[[[[[\"\\ud800\\n\"]]]]]]]]]]]]]]]]]]]]]]]]]]]]]]]]]]]]]]]]]]]]]]]]]]]]]]]]]]]]]]]]]]",
        Answer::Deep,
    ),
    (
        b"[[[[[[[[[[[[[[[[[[[[[[[[[[[[[[[[[[[[[[[[[[[[[[[[[[[[[[[[[[[[[[[[[[\"\\z\"]]]]]]]]]]]]]]]]]]]]]]]]]]]]]]]]]]]]]]]]]]]]]]]]]]]]]]]]]]]]]]]]]]",
        Answer::Text,
    ),
    (
        b"[[1],[[[[[[[[[[[[[[[[[[[[[[[[[[[[[[[[[[[[[[[[[[[[[[[[[[[[[[[[[[[[[[[[[[[[[[{\"a\":[true,1.5]}]]]]]]]]]]]]]]]]]]]]]]]]]]]]]]]]]]]]]]]]]]]]]]]]]]]]]]]]]]]]]]]]]]]]]],{}]",
        Answer::Deep,
    ),
    (
        b"[[[[[[[[[[[[[[[[[[[[[[[[[[[[[[[[[[[[[[[[[[[[[[[[[[[[[[[[[[[[[[[[{]]]]]]]]]]]]]]]]]]]]]]]]]]]]]]]]]]]]]]]]]]]]]]]]]]]]]]]]]]]]]]]]",
        Answer::Text,
    ),
];

// Each string with the bytes that it stands for.
pub(super) static STRINGS: [(&[u8], &[u8]); 14] = [
    (b"\"\"", b""),
    (b"\"a\"", b"a"),
    (b"\"\xc3\xa9\xf0\x9f\x98\x80\"", b"\xc3\xa9\xf0\x9f\x98\x80"),
    (b"\"\\\"\\\\\\/\\b\\f\\n\\r\\t\"", b"\"\\/\x08\x0c\n\r\t"),
    (b"\"\\u0041\\u00e9\\u20AC\"", b"A\xc3\xa9\xe2\x82\xac"),
    (b"\"\\ud83d\\ude00\"", b"\xf0\x9f\x98\x80"),
    (b"\"\\ud83d\"", b"\xef\xbf\xbd"),
    (b"\"\\ude00\\ud83d\"", b"\xef\xbf\xbd\xef\xbf\xbd"),
    (
        b"\"\\ud83d\\ud83d\\ude00\"",
        b"\xef\xbf\xbd\xf0\x9f\x98\x80",
    ),
    (b"\"\\ud83d\\n\"", b"\xef\xbf\xbd\n"),
    (b"\"\\ud83dx\"", b"\xef\xbf\xbdx"),
    (b"\"\\u0000\"", b"\x00"),
    (b"\"\x7f\"", b"\x7f"),
    (b"\"\xe2\x82\xac\"", b"\xe2\x82\xac"),
];
