//! The events of a run of the chip, moment by moment and access by access.

ghost use Rattle.std.specs.Prelude.{◌≡◌, ◌≤◌, length};

use crate::Map;
use crate::cells::cell_at;
use pic_chip::Access;
use pic_world::Event;

/// Watches a run of the chip by a map: whether main was met, and whether it has ended.
#[derive(Clone, Copy)]
pub struct Tracer<'a> {
    map: &'a Map,
    met: bool,
    ended: bool,
    ghost few: { length map.now.objects.items ≤ 65536 },
}

impl<'a> Tracer<'a> {
    ghost use Rattle.std.specs.Prelude.{◌≡◌, ◌++◌, ◌≤◌, false, length};
    ghost use Rattle.pic_world.specs.Registers.{lowest};
    ghost use Rattle.pic_chip.specs.Run.{Moment, observed};
    ghost use Rattle.pic_map.specs.MapContent.{watch_of};
    ghost use Rattle.pic_map.specs.MapView.{content_of};
    ghost use Rattle.pic_map.specs.Tracing.{Tracing, tracing_of, looked, told, shown, list_of};

    /// Watches a run from before its first moment on. The map has at most 65,536 object lines.
    pub fn new(map: &'a Map) -> Tracer<'a>
        requires { length map.now.objects.items ≤ 65536 }
        ensures { tracing_of result ≡ record { watch = watch_of (content_of map.now); met = false; ended = false } }
    {
        Tracer {
            map,
            met: false,
            ended: false,
        }
    }

    /// Looks at a moment's program counter, once for each moment. `End` comes exactly at the first moment
    /// at the halt address after one at main's; at any other the answer is `None`.
    pub fn at(&mut self, pc: u16) -> Option<Event>
        ensures new { tracing_of self.new ≡ looked pc (tracing_of self.old) }
        ensures told { list_of result ≡ told pc (tracing_of self.old) }
        // What is said of a moment of the run that stands there and is remembered so.
        ensures observed { (m : Moment) → m.state.pc ≡ pc → m.met ≡ (tracing_of self.old).met → m.ended ≡ (tracing_of self.old).ended → observed (tracing_of self.old).watch m ≡ record m { met = (tracing_of self.new).met; ended = (tracing_of self.new).ended; trace = m.trace ++ list_of result } }
    {
        if !self.met {
            self.met = pc == self.map.main;
            return None;
        }
        if self.ended || pc != self.map.halt {
            return None;
        }
        self.ended = true;
        Some(Event::End)
    }

    /// The event of an access, a write or a read. `None` comes exactly where main wasn't met yet, or the
    /// address is no device register and no byte of an object that isn't const. A register's event has its
    /// lowest address, at whichever of its addresses it was reached.
    pub fn event(&self, write: bool, a: Access) -> Option<Event>
        ensures { list_of result ≡ shown write a.value (lowest a.address) (tracing_of self.now) }
    {
        if !self.met {
            return None;
        }
        let cell = cell_at(&self.map.objects, a.address)?;
        Some(if write {
            Event::Write {
                cell,
                value: a.value,
            }
        } else {
            Event::Read {
                cell,
                value: a.value,
            }
        })
    }
}
