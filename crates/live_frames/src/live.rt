//! Which copies may be live together: those of different roots, and those of which one reaches the other.

ghost use Rattle.std.specs.Prelude.{◌≡◌, ℕ, ◌<◌, ◌≤◌, ◌^◌, ◌↔◌, ◌⊎◌, true, length, map, slice_get, IsTrue, IfOk};
ghost use Rattle.c_typed.specs.Chains as chains;
ghost use Rattle.c_typed.specs.Chains.{Reaches};
ghost use Rattle.c_typed.specs.Views.{program_of};
ghost use Rattle.call_graph.specs.Rows.{rows_of};
ghost use Rattle.pic_map.specs.MapView.{frame_of};
ghost use Rattle.live_frames.specs.Live.{IsGraphOf, IsIn, IsSound, IsReach, IsTakenWith};
ghost use Rattle.live_frames.specs.Memory.{is_taken};
ghost use Rattle.live_frames.specs.Together.{MayBeLive, LiveFramesHave};

use crate::memory::{Span, Taken};
use c_typed::Typed;
use call_graph::{FnCopy, graph_of, number_of, reached, reversed};
use pic_map::FrameLine;
use pic_world::Root;
use std::alloc::{AllocError, Global};

/// The call graph of a program of so many functions, both ways.
#[derive(Drop)]
pub struct Graph {
    pub functions: u32,
    pub rows: Vec<Vec<u32>>,
    pub callers: Vec<Vec<u32>>,
}

/// What a copy reaches, and what reaches it.
#[derive(Drop)]
struct Reach {
    forward: Vec<bool>,
    backward: Vec<bool>,
}

fn is_marked(marks: &[bool], number: u32) -> bool
    ensures { result ≡ is_taken marks.now number }
{
    match marks.get(number as usize) {
        Some(mark) => *mark,
        None => false,
    }
}

fn same_root(a: Root, b: Root) -> bool
    ensures { IsTrue result ↔ (a ≡ b) }
{
    match a {
        Root::Main => match b {
            Root::Main => true,
            Root::Isr => false,
        },
        Root::Isr => match b {
            Root::Main => false,
            Root::Isr => true,
        },
    }
}

impl Graph {
    /// The call graph of a program.
    pub fn new(alloc: Global, p: &Typed) -> Result<Graph, AllocError>
        requires { length p.now.functions.items ≤ 2 ^ 28 }
        ensures { IfOk result (λ graph. IsGraphOf (program_of p.now) graph × IsSound graph) }
    {
        let rows = graph_of(alloc, p)?;
        let callers = reversed(alloc, &rows)?;
        Ok(Graph {
            functions: p.functions.len() as u32,
            rows,
            callers,
        })
    }

    fn reach(&self, alloc: Global, copy: FnCopy) -> Result<Reach, AllocError>
        requires sound { IsSound self.now }
        requires within { IsIn self.now copy }
        ensures { IfOk result (λ reach. IsReach self.now (chains.number_of self.now.functions copy.function) reach) }
    {
        let number = number_of(self.functions, copy.function);
        let forward = reached(alloc, &self.rows, number)?;
        let backward = reached(alloc, &self.callers, number)?;
        Ok(Reach { forward, backward })
    }

    // Whether one of two numbers reaches the other; of the first the reach is known.
    fn touches(&self, reach: &Reach, own: u32, number: u32) -> bool
        requires known { IsReach self.now own reach.now }
        requires within { number < length self.now.rows.items }
        ensures { IsTrue result ↔ (Reaches (rows_of self.now.rows.items) number own ⊎ Reaches (rows_of self.now.rows.items) own number) }
    {
        if number == own {
            return true;
        }
        if is_marked(&reach.forward, number) {
            return true;
        }
        is_marked(&reach.backward, number)
    }

    // Whether a copy, of which the reach is known, may be live together with another.
    fn may_be_live(&self, reach: &Reach, copy: FnCopy, other: FnCopy) -> bool
        requires sound { IsSound self.now }
        requires known { IsReach self.now (chains.number_of self.now.functions copy.function) reach.now }
        requires within { IsIn self.now other }
        ensures { IsTrue result ↔ MayBeLive (rows_of self.now.rows.items) self.now.functions other copy }
    {
        if !same_root(copy.root, other.root) {
            return true;
        }
        let own = number_of(self.functions, copy.function);
        self.touches(reach, own, number_of(self.functions, other.function))
    }

    // Takes a frame, if its copy may be live together with another.
    fn take_frame(
        &self,
        taken: &mut Taken,
        reach: &Reach,
        copy: FnCopy,
        other: FnCopy,
        frame: &FrameLine,
    )
        requires sound { IsSound self.now }
        requires known { IsReach self.now (chains.number_of self.now.functions copy.function) reach.now }
        requires within { IsIn self.now other }
        ensures { IsTakenWith (MayBeLive (rows_of self.now.rows.items) self.now.functions other copy) taken.old.marks frame.now.address frame.now.size taken.new.marks }
    {
        if self.may_be_live(reach, copy, other) {
            taken.take(Span {
                address: frame.address,
                size: frame.size,
            });
        }
    }

    fn take_frames(
        &self,
        taken: &mut Taken,
        reach: &Reach,
        copy: FnCopy,
        others: &[FnCopy],
        frames: &[FrameLine],
    )
        requires sound { IsSound self.now }
        requires known { IsReach self.now (chains.number_of self.now.functions copy.function) reach.now }
        requires within { (k : ℕ) → (other : FnCopy) → slice_get others.now k ≡ Some other → IsIn self.now other }
        ensures { (x : ℕ) → x < 512 → (is_taken taken.new.marks x ≡ true) ↔ ((is_taken taken.old.marks x ≡ true) ⊎ LiveFramesHave (rows_of self.now.rows.items) self.now.functions copy others.now (map frame_of frames.now) x) }
    {
        for (number, other) in others.iter().enumerate() {
            let Some(frame) = frames.get(number) else {
                return;
            };
            self.take_frame(taken, reach, copy, *other, frame);
        }
    }

    /// Takes those of the frames that may be live together with that of a copy. The frames are those of
    /// the first of the other copies.
    pub fn take_live(
        &self,
        alloc: Global,
        taken: &mut Taken,
        copy: FnCopy,
        others: &[FnCopy],
        frames: &[FrameLine],
    ) -> Result<(), AllocError>
        requires sound { IsSound self.now }
        requires copy { IsIn self.now copy }
        requires within { (k : ℕ) → (other : FnCopy) → slice_get others.now k ≡ Some other → IsIn self.now other }
        ensures { IfOk result (λ _. (x : ℕ) → x < 512 → (is_taken taken.new.marks x ≡ true) ↔ ((is_taken taken.old.marks x ≡ true) ⊎ LiveFramesHave (rows_of self.now.rows.items) self.now.functions copy others.now (map frame_of frames.now) x)) }
    {
        let reach = self.reach(alloc, copy)?;
        self.take_frames(taken, &reach, copy, others, frames);
        Ok(())
    }
}
