ghost use Rattle.std.specs.Prelude.{◌≡◌, ◌+◌, ◌/◌, ◌%◌, ◌^◌, ◌<◌, ◌≤◌, ℕ, IfOk, length, slice_index, take};
ghost use Rattle.asc_model.specs.Shape.{length_of};
ghost use Rattle.asc_model.specs.Number.{word_at};
ghost use Rattle.asc_model.specs.State.{IsState};
ghost use Rattle.asc_model.specs.Machine.{view_of};
ghost use Rattle.asc_pages.specs.Pages.{Keeps, Tells, base_bytes};
ghost use Rattle.asc_shape.specs.State.{zero_state};

use crate::page::elements_are_bytes;
use crate::{Shape, State};
use asc_outside::Memory;
use asc_pages::{DirtyPages, FRONT, Pages, word_in};
use std::alloc::Global;
use std::marker::Model;
use std::sync::Arc;

/// A copy of a state that does not change. It can be shared, also by threads, and shares what it has in common with
/// others.
///
/// Contracts see it as the `State` of the model.
#[derive(Drop)]
pub struct Snapshot {
    shape: Shape,
    // The pc, the registers and the reservation; in version One the last bytes are memory's first.
    front: [u8; FRONT],
    pages: Pages,
}

impl Model for Snapshot {
    ghost use Rattle.asc_model.specs.Shape.{length_of};
    ghost use Rattle.asc_model.specs.State as model;
    ghost use Rattle.asc_shape.specs.Frozen.{frozen};

    ghost Value = { model.State };

    ghost view = { λ s. record { shape = s.shape; bytes = frozen (length_of s.shape) s.front s.pages } };

    ghost invariant = { λ s. model.IsState (record { shape = s.shape; bytes = frozen (length_of s.shape) s.front s.pages }) };
}

impl Snapshot {
    /// A copy of a state. It costs what changed in it since its last `freeze`; after `new` and `fill` what the
    /// state uses, and after `copy_from` all of it.
    pub fn of(alloc: Global, state: &State) -> Result<Arc<Snapshot>, Memory>
        ensures { IfOk result (λ s. s.value ≡ state.now) }
    {
        state.snapshot(alloc, None)
    }

    /// The state of this shape whose bytes are all 0. It has no pages.
    pub fn zeros(alloc: Global, shape: Shape) -> Result<Arc<Snapshot>, Memory>
        ensures { IfOk result (λ s. s.value ≡ zero_state shape) }
    {
        // That it is a shape.
        let _ = shape.base();
        let pages = Pages::none(alloc)?;
        Ok(Arc::new(
            alloc,
            Snapshot {
                shape,
                front: [0; FRONT],
                pages,
            },
        )?)
    }

    /// The state of these bytes. Pages that are not changed are shared with the base. The memory of a spare copy that has
    /// this shape and is nobody else's is used again.
    #[inline]
    pub(crate) fn made(
        alloc: Global,
        shape: Shape,
        bytes: &[u8],
        changed: &DirtyPages,
        base: &Option<Pages>,
        spare: Option<Arc<Snapshot>>,
    ) -> Result<Arc<Snapshot>, Memory>
        requires length { length bytes.now ≡ length_of shape }
        requires pages { length changed.now ≡ length_of shape / 1024 + 1 }
        requires kept { Keeps changed.now (base_bytes base.now) bytes.now }
        ensures { IfOk result (λ s. s.value ≡ record { shape = shape; bytes = bytes.now }) }
    {
        if let Some(mut spare) = spare {
            if let Some(old) = Arc::get_mut(&mut spare) {
                if old.shape() == shape {
                    old.renew(alloc, bytes, changed, base)?;
                    return Ok(spare);
                }
            }
        }
        let _ = shape.base();
        elements_are_bytes(bytes);
        let pages = Pages::of(alloc, bytes, changed, base)?;
        let front = front_of(bytes);
        Ok(Arc::new(
            alloc,
            Snapshot {
                shape,
                front: *front,
                pages,
            },
        )?)
    }

    // Makes this the state of these bytes, as `made` makes it. Where memory is wanting it is some state.
    #[inline]
    fn renew(
        &mut self,
        alloc: Global,
        bytes: &[u8],
        changed: &DirtyPages,
        base: &Option<Pages>,
    ) -> Result<(), Memory>
        requires length { length bytes.now ≡ length_of self.old.shape }
        requires pages { length changed.now ≡ length_of self.old.shape / 1024 + 1 }
        requires kept { Keeps changed.now (base_bytes base.now) bytes.now }
        ensures { IfOk result (λ _. self.new ≡ record self.old { bytes = bytes.now }) }
    {
        let _ = self.shape.base();
        elements_are_bytes(bytes);
        self.pages.renew(alloc, bytes, changed, base)?;
        self.front = *front_of(bytes);
        Ok(())
    }

    /// The shape. A caller's proof learns from it that this is a state.
    #[inline]
    pub fn shape(&self) -> Shape
        ensures shape { result ≡ self.now.shape }
        ensures state { IsState self.now }
    {
        self.shape
    }

    /// The pc.
    pub fn pc(&self) -> u32
        ensures { result ≡ (view_of self.now).pc }
    {
        let _ = self.shape();
        word_in(&self.front, 0)
    }

    /// The word at a place that is a multiple of 4.
    #[inline]
    pub fn word(&self, place: u32) -> u32
        requires aligned { place % 4 ≡ 0 }
        requires within { place < length_of self.now.shape }
        ensures { result ≡ word_at self.now.bytes place }
    {
        let at = place as usize;
        if at < FRONT {
            word_in(&self.front, at)
        } else {
            self.pages.word(at)
        }
    }

    /// The first bytes.
    #[inline]
    pub(crate) fn front(&self) -> &[u8]
        ensures front { (i : ℕ) → i < 136 → slice_index self.now.bytes i ≡ slice_index result.now i }
        ensures size { length result.now ≡ 136 }
    {
        let _ = self.shape();
        &self.front
    }

    /// The other bytes.
    #[inline]
    pub(crate) fn pages(&self) -> &Pages
        ensures { Tells result.now self.now.bytes }
    {
        &self.pages
    }
}

/// The first bytes of a state.
#[inline]
pub(crate) fn front_of(bytes: &[u8]) -> &[u8; FRONT]
    requires { 136 ≤ length bytes.now }
    ensures front { result.now ≡ take 136 bytes.now }
    ensures size { length result.now ≡ 136 }
{
    match bytes.first_chunk() {
        Some(front) => front,
        None => unreachable!(),
    }
}
