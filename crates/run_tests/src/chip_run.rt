//! The run of an image on the chip, with its events by name.

use pic_chip::{Access, Accesses, Chip, Image, Start, StepEnd};
use pic_map::Map;
use pic_world::{Arrival, Cell, Event, Script, register_name};
use std::alloc::{AllocError, Global};

/// The events of a run, each arrival with the length that the trace had when it came, and the most words of the return
/// stack that were in use.
#[derive(Drop)]
pub struct ChipRun {
    pub events: Vec<Event>,
    pub arrived: Vec<Arrival>,
    pub depth: i64,
}

// Whether main was met, and whether it has ended.
#[derive(Clone, Copy)]
struct Watch {
    met: bool,
    ended: bool,
}

fn static_at(map: &Map, address: u16) -> Option<Cell> {
    for (number, line) in map.objects.iter().enumerate() {
        let Some(offset) = address.checked_sub(line.address) else {
            continue;
        };
        if !line.fixed && offset < line.size {
            let object = u16::try_from(number).ok()?;
            return Some(Cell::Static { object, offset });
        }
    }
    None
}

fn cell_at(map: &Map, address: u16) -> Option<Cell> {
    match u8::try_from(address) {
        Ok(device) if register_name(device).is_some() => Some(Cell::Device { address: device }),
        _ => static_at(map, address),
    }
}

fn put_access(
    events: &mut Vec<Event>,
    map: &Map,
    access: Option<Access>,
    write: bool,
) -> Result<(), AllocError> {
    let Some(Access { address, value }) = access else {
        return Ok(());
    };
    if let Some(cell) = cell_at(map, address) {
        events.push(if write {
            Event::Write { cell, value }
        } else {
            Event::Read { cell, value }
        })?;
    }
    Ok(())
}

fn put_accesses(
    run: &mut ChipRun,
    watch: Watch,
    map: &Map,
    accesses: Accesses,
) -> Result<(), AllocError> {
    if watch.met {
        put_access(&mut run.events, map, accesses.read, false)?;
        put_access(&mut run.events, map, accesses.write, true)?;
    }
    Ok(())
}

fn look(run: &mut ChipRun, watch: Watch, map: &Map, pc: u16) -> Result<Watch, AllocError> {
    if !watch.met {
        return Ok(Watch {
            met: pc == map.main,
            ended: false,
        });
    }
    if !watch.ended && pc == map.halt {
        run.events.push(Event::End)?;
        return Ok(Watch {
            met: true,
            ended: true,
        });
    }
    Ok(watch)
}

fn put_arrivals(run: &mut ChipRun, script: &Script, index: u64) -> Result<(), AllocError> {
    for arrival in &script.arrivals {
        if arrival.t as u64 == index {
            let length = u32::try_from(run.events.len()).unwrap_or(u32::MAX);
            run.arrived.push(Arrival {
                t: length,
                flag: arrival.flag,
            })?;
        }
    }
    Ok(())
}

/// The chip after power-on, whose unknown bytes are all this one.
fn started(byte: u8) -> Chip {
    Chip::reset(&Start {
        w: byte,
        fsr: byte,
        flags: byte % 8,
        ram: [byte; 368],
    })
}

/// The run of an image for so many instructions, from a start whose unknown bytes are all this one.
pub fn chip_run(
    alloc: Global,
    image: &Image,
    map: &Map,
    script: &Script,
    instructions: u32,
    byte: u8,
) -> Result<ChipRun, AllocError> {
    let mut run = ChipRun {
        events: Vec::new(alloc),
        arrived: Vec::new(alloc),
        depth: 0,
    };
    let mut chip = started(byte);
    let mut watch = Watch {
        met: false,
        ended: false,
    };
    for _ in 0..instructions {
        let index = chip.index();
        if index >= 1_000_000 {
            break;
        }
        watch = look(&mut run, watch, map, chip.pc())?;
        put_arrivals(&mut run, script, index)?;
        match chip.step(image, script) {
            StepEnd::Done(accesses) => put_accesses(&mut run, watch, map, accesses)?,
            StepEnd::Unmodelled(_) => return Ok(run),
        }
        run.depth = run.depth.max(chip.depth());
    }
    look(&mut run, watch, map, chip.pc())?;
    Ok(run)
}
