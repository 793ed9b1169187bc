//! How the texts of tables are written down.

use std::alloc::Global;
use std::test::Fail;

/// The text that a notation stands for. A `$` ends a line. What stands between two backquotes is a number, `*` and a part, which is there so
/// many times; an `@` in it is the number of the time, from 0.
pub fn written(alloc: Global, notation: &str) -> Result<Vec<u8>, Fail> {
    let mut text = Vec::new(alloc);
    let mut repeated = false;
    for piece in notation.split('`') {
        if repeated {
            put_times(alloc, &mut text, piece)?;
        } else {
            put_part(&mut text, piece, "@")?;
        }
        repeated = !repeated;
    }
    Ok(text)
}

fn put_times(alloc: Global, text: &mut Vec<u8>, piece: &str) -> Result<(), Fail> {
    let Some((times, part)) = piece.split_once('*') else {
        return Err(Fail::new("a part without a number"));
    };
    for time in 0..times.parse::<u32>()? {
        let number = format!(in alloc; "{time}")?;
        put_part(text, part, &number)?;
    }
    Ok(())
}

/// The part, with the number in place of each `@`.
fn put_part(text: &mut Vec<u8>, part: &str, number: &str) -> Result<(), Fail> {
    for byte in part.as_bytes() {
        match *byte {
            b'$' => text.push(b'\n')?,
            b'@' => text.extend_from_slice(number.as_bytes())?,
            other => text.push(other)?,
        }
    }
    Ok(())
}
