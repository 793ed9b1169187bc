//! The search for a certificate.

ghost use Rattle.std.specs.Prelude.{◌≡◌, ◌<◌, ◌≤◌, ◌^◌, ℕ, List, Bool, true, false, length, replicate, IfOk, IfSome, IfNone, Option, Some, None};
ghost use Rattle.depth_check.specs.Certificate.{Certificate, seen};
ghost use Rattle.depth_check.specs.Valid.{is_valid};
ghost use Rattle.depth_check.specs.Search.{tables, unchanged};
ghost use Rattle.depth_check.specs.Found.{Goes, IsSettled, IsSearch, IsOver, IsBest};
ghost use Rattle.depth_check.specs.declared.tables.Spot.{Spot as AnySpot};
ghost use Rattle.depth_check.specs.declared.tables.Out.{Out as AnyOut};

use crate::Heights;
use crate::agenda::Agenda;
use crate::check::verify;
use crate::finish::{certificate, raise_all};
use crate::tables::{Out, Search, Spot};
use pic_chip::Image;
use std::alloc::{AllocError, Global};

#[tactic(auto, using(crate::proofs::Settling::one_more))]
fn blank_spots(alloc: Global) -> Result<Vec<Option<Spot>>, AllocError>
    ensures { IfOk result (λ spots. spots.items ≡ replicate 8192 None) }
{
    let mut spots = Vec::new(alloc);
    for _at in 0..8192u16 {
        spots.push(None)?;
    }
    Ok(spots)
}

#[tactic(auto, using(crate::proofs::Settling::one_more))]
fn blank_outs(alloc: Global) -> Result<Vec<Option<Out>>, AllocError>
    ensures { IfOk result (λ outs. outs.items ≡ replicate 8192 None) }
{
    let mut outs = Vec::new(alloc);
    for _at in 0..8192u16 {
        outs.push(None)?;
    }
    Ok(outs)
}

// More turns than a search takes: an address waits for what changes there, six times at most, and for where its callee is left, three times.
const TURNS: u32 = 100_000;

// What waits is looked at, until nothing does.
fn chase(image: &Image, s: &mut Search)
    ensures { Goes image.now (tables s.old) (tables s.new) }
{
    for _turn in 0..TURNS {
        match s.agenda.take() {
            None => return,
            Some(at) => s.step(image, at),
        }
    }
}

// What the roots lead to, and then each row once, in order of address.
fn pass(image: &Image, s: &mut Search)
    ensures goes { Goes image.now (unchanged (tables s.old)) (tables s.new) }
    ensures over { IsOver image.now (tables s.new) }
{
    s.changed = false;
    s.with_roots();
    chase(image, s);
    for at in 0..8192u16 {
        s.step(image, at);
    }
}

// Nothing is found yet.
fn blank(alloc: Global, interrupts: bool, cell: u8) -> Result<Search, AllocError>
    ensures search { IfOk result (λ s. (image : List ℕ) → IsSearch image interrupts cell (tables s)) }
    ensures changed { IfOk result (λ s. s.changed ≡ true) }
{
    Ok(Search {
        interrupts,
        cell,
        spots: blank_spots(alloc)?,
        outs: blank_outs(alloc)?,
        changed: true,
        agenda: Agenda::new(alloc)?,
    })
}

// All that is asked for, from the rows that each certificate begins with.
fn found(alloc: Global, image: &Image, interrupts: bool, cell: u8) -> Result<Search, AllocError>
    ensures search { IfOk result (λ s. IsSearch image.now interrupts cell (tables s)) }
    ensures settled { IfOk result (λ s. IsSettled image.now (tables s) 8192) }
{
    let mut s = blank(alloc, interrupts, cell)?;
    while s.changed {
        pass(image, &mut s);
    }
    Ok(s)
}

// A certificate that is valid where one with this cell and these interrupts is.
fn candidate(
    alloc: Global,
    image: &Image,
    interrupts: bool,
    cell: u8,
) -> Result<Heights, AllocError>
    ensures { IfOk result (λ h. IsBest image.now interrupts cell (seen h)) }
{
    let s = found(alloc, image, interrupts, cell)?;
    let mut h = certificate(alloc, &s)?;
    raise_all(image, &mut h);
    Ok(h)
}

fn tried(
    alloc: Global,
    image: &Image,
    interrupts: bool,
    cell: u8,
) -> Result<Option<Heights>, AllocError>
    ensures some { IfOk result (λ answer. IfSome answer (λ h. is_valid image.now (seen h) ≡ true)) }
    ensures none { IfOk result (λ answer. IfNone answer ((c : Certificate) → is_valid image.now c ≡ true → c.cell ≡ cell → c.interrupts ≡ interrupts → ⊥)) }
{
    let h = candidate(alloc, image, interrupts, cell)?;
    if verify(image, &h) {
        Ok(Some(h))
    } else {
        Ok(None)
    }
}

/// A valid certificate of the image, or `None` exactly where no certificate is valid for it. It fails where memory runs out.
pub fn certify(alloc: Global, image: &Image) -> Result<Option<Heights>, AllocError>
    ensures some { IfOk result (λ answer. IfSome answer (λ h. is_valid image.now (seen h) ≡ true)) }
    ensures none { IfOk result (λ answer. IfNone answer ((c : Certificate) → is_valid image.now c ≡ true → ⊥)) }
{
    for cell in 0x70..0x80u8 {
        if let Some(h) = tried(alloc, image, false, cell)? {
            return Ok(Some(h));
        }
        if let Some(h) = tried(alloc, image, true, cell)? {
            return Ok(Some(h));
        }
    }
    Ok(None)
}
