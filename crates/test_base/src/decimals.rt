//! The reading of tokens. The expected values were worked out with the module `decimal` of Python.

use NumberFault::{Form, Size};
use geo_decimal::*;
use std::process::Abort;
use std::test::Fail;

// A token, and the number of nanodegrees or what is wrong.
static TABLE: [(&[u8], Result<i64, NumberFault>); 49] = [
    (b"-122.0301234565", Ok(-122030123457)),
    (b"1.5e-9", Ok(2)),
    (b"4e-10", Ok(0)),
    (b"1800000000000e-10", Ok(180000000000)),
    (b"180.0000000004", Ok(180000000000)),
    (b"180.0000000006", Err(Size)),
    (b"1e400", Err(Size)),
    (b"01", Err(Form)),
    (b"-0", Ok(0)),
    (b"0e5", Ok(0)),
    (b"5e-10", Ok(1)),
    (b"-5e-10", Ok(-1)),
    (b"-0.5e-9", Ok(-1)),
    (b"49999999999999999999e-29", Ok(0)),
    (b"180", Ok(180000000000)),
    (b"-180.0000000004", Ok(-180000000000)),
    (b"-180.0000000005", Err(Size)),
    (b"180.0000000005", Err(Size)),
    (b"180.00000000049999", Ok(180000000000)),
    (b"2.5E+00000000000000000001", Ok(25000000000)),
    (b"1e-0009", Ok(1)),
    (b"17e+2", Err(Size)),
    (b"0.000000000000000000018e22", Ok(180000000000)),
    (b"3e-9999999999999999999999999999999999999999", Ok(0)),
    (b"3e9999999999999999999999999999999999999999", Err(Size)),
    (b"0e9999999999999999999999999999999999999999", Ok(0)),
    (b"-0.00E+9999999999999999999999999999999999999999", Ok(0)),
    (b"25e-00000000000000000000000000000000000000009", Ok(25)),
    (b"", Err(Form)),
    (b"-", Err(Form)),
    (b"+1", Err(Form)),
    (b".5", Err(Form)),
    (b"1.", Err(Form)),
    (b"1e", Err(Form)),
    (b"1e+", Err(Form)),
    (b"--1", Err(Form)),
    (b"1.e5", Err(Form)),
    (b"1.5e", Err(Form)),
    (b"1.5.5", Err(Form)),
    (b"1e5e5", Err(Form)),
    (b"0x1", Err(Form)),
    (b" 1", Err(Form)),
    (b"1 ", Err(Form)),
    (b"-01", Err(Form)),
    (b"00", Err(Form)),
    (b"1e5.0", Err(Form)),
    (b"-.5", Err(Form)),
    (b"1e+-5", Err(Form)),
    (b"Infinity", Err(Form)),
];

fn judge(rt: &impl Abort, rows: &[(&[u8], Result<i64, NumberFault>)]) {
    for (token, value) in rows {
        assert!(rt; nano(token) == *value);
    }
}

#[test]
fn reads_tokens(rt: HostRuntime) -> Result<(), Fail> {
    judge(&rt, &TABLE);
    Ok(())
}
