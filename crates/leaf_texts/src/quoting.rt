//! Strings between quotes, escaped where that is needed.
ghost use Rattle.std.specs.Prelude.{◌≡◌, ◌<◌, ◌++◌, ◌∷◌, [], string_bytes, OnOk};
ghost use Rattle.std.specs.List.{flat_map, list_all};
ghost use Rattle.leaf_texts.specs.Texts.{hex_digit, unescaped, escape, is_bare, quoted};

use std::alloc::AllocError;

/// Appends a hexadecimal digit.
fn put_digit(out: &mut String, digit: u8) -> Result<(), AllocError>
    requires { digit < 16 }
    ensures { OnOk result (string_bytes out.new ≡ string_bytes out.old ++ hex_digit digit ∷ []) }
{
    let code = if digit < 10 { 48 + digit } else { 87 + digit };
    out.push(char::from(code))
}

/// Appends a byte that needs no escape, or that is no ASCII.
fn put_unescaped(out: &mut String, byte: u8) -> Result<(), AllocError>
    ensures { OnOk result (string_bytes out.new ≡ string_bytes out.old ++ unescaped byte) }
{
    if byte < 128 {
        out.push(char::from(byte))?;
        return Ok(());
    }
    out.push_str("\\x")?;
    put_digit(out, byte / 16)?;
    put_digit(out, byte % 16)
}

/// Appends one byte of a string, escaped.
fn put_byte(out: &mut String, byte: u8) -> Result<(), AllocError>
    ensures { OnOk result (string_bytes out.new ≡ string_bytes out.old ++ escape byte) }
{
    match byte {
        b'\n' => out.push_str("\\n"),
        b'\t' => out.push_str("\\t"),
        b'\\' => out.push_str("\\\\"),
        b'"' => out.push_str("\\\""),
        _ => put_unescaped(out, byte),
    }
}

/// Whether a byte is written as it stands.
fn is_bare(byte: u8) -> bool
    ensures { result ≡ is_bare byte }
{
    byte != b'\n' && byte != b'\t' && byte != b'\\' && byte != b'"' && byte < 128
}

/// Whether every byte is written as it stands.
fn are_bare(text: &[u8]) -> bool
    ensures { result ≡ list_all is_bare text.now }
{
    text.iter().all(|byte| is_bare(*byte))
}

/// Appends bytes, each escaped.
fn put_escaped(out: &mut String, text: &[u8]) -> Result<(), AllocError>
    ensures { OnOk result (string_bytes out.new
        ≡ string_bytes out.old ++ flat_map escape text.now) }
{
    for byte in text {
        put_byte(out, *byte)?;
    }
    Ok(())
}

/// Appends a string, escaped. Mostly it is written as it stands, and then all at once.
fn put_unquoted(out: &mut String, text: &str) -> Result<(), AllocError>
    ensures { OnOk result (string_bytes out.new
        ≡ string_bytes out.old ++ flat_map escape text.now) }
{
    if !are_bare(text.as_bytes()) {
        return put_escaped(out, text.as_bytes());
    }
    out.push_str(text)?;
    Ok(())
}

/// Appends a string between quotes.
///
/// # Errors
///
/// `AllocError` where memory is refused. A part of the text may have been appended then.
pub fn put_quoted(out: &mut String, text: &str) -> Result<(), AllocError>
    ensures { OnOk result (string_bytes out.new ≡ string_bytes out.old ++ quoted text.now) }
{
    out.push_str("\"")?;
    put_unquoted(out, text)?;
    out.push_str("\"")
}
