//! The headline on the second chip, the PIC16F84A in the profile of this project, from that on the first one.
//!
//! In: nothing; the crate has definitions, and one theorem about them. Out: nothing.
//! The promise: where an image does on the first chip what its source says, and keeps within what both chips have, the ported image does on
//! the second chip what that source says: for every start, input list and arrival list.
#![tactic(auto)]

ghost use Rattle.headline_84a.specs.Second.{EachSecondIsFaithful};

/// Where the headline holds of an image on the first chip, and the image keeps within what both chips have, it holds of the ported image on the
/// second one.
pub fn second_is_faithful()
    ensures { EachSecondIsFaithful }
{}
