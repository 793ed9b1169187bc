//! The chips whose instructions this crate runs.

/// A chip of the mid-range family with 14-bit words.
#[derive(Clone, Copy)]
pub enum Profile {
    /// The PIC16F877A (DS39582): 368 general bytes in four banks.
    Pic16F877a,
    /// The PIC16F84A (DS35007), without its EEPROM: 68 general bytes, the same in both banks.
    Pic16F84a,
}
