//! Cases of the chip and of what stands outside the compiler: words and names of the data sheet, and small images that run step by
//! step; files of images, maps and scripts, cut off anywhere too; hosts that hold files; and boards that answer the chip, with
//! anything too.
//!
//! In: texts, and boards and hosts made for a case. Out: nothing; these are tests of pic_isa, pic_world, pic_chip, hex_image, pic_map,
//! schedule, host_io, pic_sim and chip_84a.
#![tactic(auto)]

#[cfg(test)]
mod boards;
#[cfg(test)]
mod cuts;
#[cfg(test)]
mod hosts;
#[cfg(test)]
mod images;
#[cfg(test)]
mod runs;
#[cfg(test)]
mod second;
#[cfg(test)]
mod tables;
#[cfg(test)]
mod texts;
