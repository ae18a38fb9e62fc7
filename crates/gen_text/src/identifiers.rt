//! Writing numbers and identifiers.

ghost use Rattle.std.specs.Prelude.{◌≡◌, ◌++◌, IfOk, OnOk};
ghost use Rattle.std.specs.Fmt.{signed_decimal};
ghost use Rattle.gen_text.specs.Numbers.{padded, identifier};

use line_forms::push_number;
use std::alloc::{AllocError, Global};

/// Adds the last digits of a number, so many of them.
pub(crate) fn push_padded(out: &mut Vec<u8>, width: u8, n: u32) -> Result<(), AllocError>
    ensures { OnOk result (out.new.items ≡ out.old.items ++ padded width n) }
{
    if width == 0 {
        return Ok(());
    }
    push_padded(out, width - 1, n / 10)?;
    out.push(b'0' + (n % 10) as u8)?;
    Ok(())
}

/// Adds the identifier of the feature of a number.
pub(crate) fn push_identifier(out: &mut Vec<u8>, number: u32) -> Result<(), AllocError>
    ensures { OnOk result (out.new.items ≡ out.old.items ++ identifier number) }
{
    out.extend_from_slice(b"00000000-0000-4000-8000-")?;
    push_padded(out, 12, number)?;
    Ok(())
}

/// The text of the identifier of the feature of a number.
pub fn identifier_text(alloc: Global, number: u32) -> Result<Vec<u8>, AllocError>
    ensures { IfOk result (λ text. text.items ≡ identifier number) }
{
    let mut out = Vec::new(alloc);
    push_identifier(&mut out, number)?;
    Ok(out)
}

/// Adds a number with its sign, where it has one.
pub(crate) fn push_signed(out: &mut Vec<u8>, n: i16) -> Result<(), AllocError>
    ensures { OnOk result (out.new.items ≡ out.old.items ++ signed_decimal n) }
{
    if n < 0 {
        out.push(b'-')?;
        return push_number(out, n.unsigned_abs() as u64);
    }
    push_number(out, n as u64)?;
    Ok(())
}
