//! The text of a picture.
use std::alloc::AllocError;

// Appends words.
pub(crate) fn add(text: &mut Vec<u8>, words: &[u8]) -> Result<(), AllocError> {
    text.extend_from_slice(words)?;
    Ok(())
}

// Appends a name. The signs that have a meaning in SVG are written as it demands.
pub(crate) fn add_name(text: &mut Vec<u8>, name: &[u8]) -> Result<(), AllocError> {
    for byte in name {
        match *byte {
            b'&' => add(text, b"&amp;")?,
            b'<' => add(text, b"&lt;")?,
            b'>' => add(text, b"&gt;")?,
            sign => add(text, &[sign])?,
        }
    }
    Ok(())
}

// Appends a number.
pub(crate) fn add_number(text: &mut Vec<u8>, number: u64) -> Result<(), AllocError> {
    add(text, itoa::Buffer::new().format(number).as_bytes())
}

// Appends the beginning of a line of text that stands at this point.
pub(crate) fn add_text_at(text: &mut Vec<u8>, x: u64, y: u64) -> Result<(), AllocError> {
    add(text, b"<text x=\"")?;
    add_number(text, x)?;
    add(text, b"\" y=\"")?;
    add_number(text, y)?;
    add(text, b"\">")
}

// Appends a line from a point to the right.
pub(crate) fn add_stroke(text: &mut Vec<u8>, x: u64, y: u64, width: u64) -> Result<(), AllocError> {
    add(text, b"M")?;
    add_number(text, x)?;
    add(text, b" ")?;
    add_number(text, y)?;
    add(text, b"h")?;
    add_number(text, width)
}

// Appends a line from a point to the right, behind another at the same height that ended at `pen`, if there is one. Returns
// where it ends. Behind another it takes fewer bytes.
pub(crate) fn add_next_stroke(
    text: &mut Vec<u8>,
    pen: Option<u64>,
    x: u64,
    y: u64,
    width: u64,
) -> Result<u64, AllocError> {
    match pen {
        Some(end) => {
            add(text, b"m")?;
            add_number(text, x.saturating_sub(end))?;
            add(text, b" 0h")?;
            add_number(text, width)?;
        }
        None => add_stroke(text, x, y, width)?,
    }
    Ok(x.saturating_add(width))
}
