//! The words of program memory.

ghost use Rattle.std.specs.Prelude.{◌<◌};

use crate::listing::Listing;
use pic_chip::Image;
use picc_core::Built;

/// What stands in a word that no instruction was put into.
const ERASED: u16 = 0x3fff;

fn put_word(out: &mut Listing, image: &Image, at: u16)
    requires { at < 8192 }
{
    let word = image.word(at);
    if word == ERASED {
        return;
    }
    out.begin(1, "Word");
    out.number(at as u64);
    out.number(word as u64);
    out.end();
}

/// The words that aren't erased, with their addresses, and where main begins and has ended.
pub fn put_image(out: &mut Listing, built: &Built) {
    out.begin(0, "Image");
    out.numbered("main", built.map.main as u64);
    out.numbered("halt", built.map.halt as u64);
    out.end();
    for at in 0..8192u16 {
        put_word(out, &built.image, at);
    }
}
