//! The tokens of a program that are names are spelled as names. That such a token stands so in the text is told by the longest token
//! at its place (c_token); directives and replacement give no other spans.

ghost use Rattle.program_laws.specs.TokenWords.{TokensAreWords};

/// Each name among a program's tokens is letters, digits and underscores, of which the first is no digit.
pub fn tokens_are_words()
    ensures words { TokensAreWords }
{}
