//! What the start block keeps: main is met soon, and finds its objects with their first bytes.

ghost use Rattle.chip_trace.specs.Starting.{Starting};

/// The start block brings the chip from reset to main, whatever power-on leaves. In a layout that ends below 100h it leaves RP1 and IRP 0.
pub fn main_is_met()
    ensures { Starting }
{}
