//! How many words of the chip's return stack the calls of a program take.
//!
//! In: the calls of the longest chain from main, and of the longest one from the interrupt handler, if there is one.
//! Out: how many words are taken at once at the most.
//! The promise: an interrupt may come at the deepest call from main, and its return address takes a word, too (Microchip data sheet DS39582,
//! program memory organization: the stack has eight words for calls and interrupts).
#![tactic(auto)]

ghost use Rattle.std.specs.Prelude.{◌≡◌, ◌+◌, ◌<◌, ◌^◌, MatchOption};
ghost use Rattle.std.specs.Option.{ForSome};

/// The longest chain of calls from main, and where there is a handler, 1 and the longest chain from it.
pub fn depth_of(main: u32, handler: Option<u32>) -> u32
    requires main { main < 2 ^ 30 }
    requires handler { ForSome handler (λ longest. longest < 2 ^ 30) }
    ensures { MatchOption handler (result ≡ main) (λ longest. result ≡ main + 1 + longest) }
{
    match handler {
        Some(longest) => main + 1 + longest,
        None => main,
    }
}
