//! The pins that are open, each with its number.
ghost use Rattle.std.specs.Prelude.{◌≡◌, ◌==◌, ◌≤◌, length, None, Some, IfOk, IfErr, OnErr};
ghost use Rattle.std.specs.List.{position};
ghost use Rattle.heap_world.specs.State.{HeapState};
ghost use Rattle.heap_step.specs.declared.Event.{Event};
ghost use Rattle.heap_step.specs.Laws.{IsStep};
ghost use Rattle.hprof_text.specs.Laws.{piece_size_limit};
ghost use Rattle.heap_pins.specs.KeptCopies.{touched};
ghost use Rattle.heap_pins.specs.SharedCopies.{SharesBefore};
ghost use Rattle.heap_trail.specs.OpenPins.{CanGive, HasGiven, IsNextPiece, IsMade, IsSizedPin, IsRegionWithin, MayCount, MayKeep, NeedsCopy, RefusesPiece, held_advanced, is_settled, held_place, slot_after_rewind};
ghost use Rattle.heap_trail.specs.Views.{CanShow, IsViewBeside, RefusesView};

use heap_class::{IdSize, LostCause, ObjRef, Refusal};
use heap_pins::{Pin, PinView, RegionCopy};
use heap_step::Undo;
use heap_world::World;
use hprof_text::{Cursor, Piece, piece_from};
use std::alloc::Global;

// A pin on a place, with the cursor of its next piece and the number of pieces that it gave; or one that is lost.
#[derive(Drop)]
pub(crate) enum Held {
    // A pin that shows the state at `place`, gave `given` pieces, and has its cursor at the next.
    Kept {
        place: u64,
        pin: Pin,
        cursor: Cursor,
        given: u64,
    },
    // A pin on `place` that is lost, for this cause.
    Lost {
        place: u64,
        cause: LostCause,
    },
}

// An open pin with its number.
#[derive(Drop)]
pub(crate) struct NumberedPin {
    pub(crate) number: u64,
    pub(crate) held: Held,
}

// Finds the first slot with this number.
pub(crate) fn slot_of(pins: &[NumberedPin], number: u64) -> Option<usize>
    ensures { result ≡ position (λ s. s.number == number) pins.now }
{
    pins.iter().position(|slot| slot.number == number)
}

impl NumberedPin {
    // Returns the place of the pin.
    #[tactic(auto, unfolding(crate::specs::OpenPins::held_place))]
    fn place(&self) -> u64
        ensures { result ≡ held_place self.now.held }
    {
        match &self.held {
            Held::Kept { place, .. } => *place,
            Held::Lost { place, .. } => *place,
        }
    }

    // Tells whether no write to a region matters to the pin: it has a copy of the region, or it is lost.
    #[inline(always)]
    #[tactic(auto, unfolding(crate::specs::OpenPins::is_settled))]
    pub(crate) fn is_settled(&self, region: u64) -> bool
        requires { IsRegionWithin region self.now.held }
        ensures { result ≡ is_settled region self.now.held }
    {
        match &self.held {
            Held::Kept { pin, .. } => pin.has_copy(region),
            Held::Lost { .. } => true,
        }
    }

    // Keeps what the step that left this record and led to this state overwrote in this region: a copy, which pins share. The pin
    // is lost if memory for it can't be allocated.
    #[inline(always)]
    pub(crate) fn keep(
        &mut self,
        world: &World,
        left: &Undo,
        region: u64,
        shared: &mut Option<RegionCopy>,
    )
        requires touched { touched left.now ≡ Some region }
        requires step { (e : Event) × (before : HeapState) × IsStep e before world.now left.now }
        requires sized { IsSizedPin (length world.now.regions) self.old }
        requires shared { SharesBefore left.now world.now shared.old }
        ensures kept { MayKeep left.now world.now self.old self.new }
        ensures shared { SharesBefore left.now world.now shared.new }
    {
        if !self.is_settled(region) {
            self.copy_region(world, left, shared);
        }
    }

    // Has the pin note the step that left this record and led to this state, which touched no region. Takes no memory.
    pub(crate) fn note(&mut self, world: &World, left: &Undo)
        requires step { (e : Event) × (before : HeapState) × IsStep e before world.now left.now }
        requires sized { IsSizedPin (length world.now.regions) self.old }
        requires untouched { touched left.now ≡ None }
        ensures { MayKeep left.now world.now self.old self.new }
    {
        match &mut self.held {
            Held::Kept { pin, .. } => pin.note(left),
            Held::Lost { .. } => {}
        }
    }

    // Has the pin note the step that left this record, that of an object made at `at`, and led to this state. Takes no memory.
    #[inline(always)]
    pub(crate) fn note_new(&mut self, world: &World, left: &Undo, at: ObjRef, fresh: bool)
        requires step { (e : Event) × (before : HeapState) × IsStep e before world.now left.now }
        requires sized { IsSizedPin (length world.now.regions) self.old }
        requires made { IsMade at fresh left.now }
        ensures { MayKeep left.now world.now self.old self.new }
    {
        match &mut self.held {
            Held::Kept { pin, .. } => pin.keep_new(at, fresh),
            Held::Lost { .. } => {}
        }
    }

    // Keeps a copy of the region that the step touched, as it was before, which pins share. The pin must have no copy of it, and
    // is lost if memory for the copy can't be allocated.
    #[inline(never)]
    fn copy_region(&mut self, world: &World, left: &Undo, shared: &mut Option<RegionCopy>)
        requires step { (e : Event) × (before : HeapState) × IsStep e before world.now left.now }
        requires sized { IsSizedPin (length world.now.regions) self.old }
        requires needed { NeedsCopy left.now self.old.held }
        requires shared { SharesBefore left.now world.now shared.old }
        ensures kept { MayKeep left.now world.now self.old self.new }
        ensures shared { SharesBefore left.now world.now shared.new }
    {
        let place = self.place();
        let lost = match &mut self.held {
            Held::Kept { pin, .. } => pin.keep(world, left, shared).is_err(),
            Held::Lost { .. } => false,
        };
        if lost {
            self.held = Held::Lost {
                place,
                cause: LostCause::Memory,
            };
        }
    }

    // Loses the pin if it is above this place.
    pub(crate) fn rewind(&mut self, to: u64)
        ensures { self.new ≡ slot_after_rewind to self.old }
    {
        let place = self.place();
        let lost = match &self.held {
            Held::Kept { .. } => place > to,
            Held::Lost { .. } => false,
        };
        if lost {
            self.held = Held::Lost {
                place,
                cause: LostCause::Rewound,
            };
        }
    }

    // Returns the view of the pin beside the current state. Fails with Lost and its cause if the pin is lost.
    pub(crate) fn view<'a>(&'a self, world: &'a World, ids: IdSize) -> Result<PinView<'a>, Refusal>
        requires { CanShow world.now self.now.held }
        ensures view { IfOk result (λ v. IsViewBeside ids world.now self.now.held v) }
        ensures refused { IfErr result (λ e. RefusesView self.now.held e) }
    {
        match &self.held {
            Held::Kept { pin, .. } => Ok(PinView::new(pin, world, ids)),
            Held::Lost { cause, .. } => Err(Refusal::Lost { cause: *cause }),
        }
    }

    // Returns the pin's next piece. Fails with Lost and its cause if the pin is lost, or with NoMemory; the same piece is
    // then still the next.
    pub(crate) fn next_piece(
        &mut self,
        alloc: Global,
        world: &World,
        ids: IdSize,
        time: u64,
    ) -> Result<Piece, Refusal>
        requires { CanGive ids world.now self.old.held }
        ensures given { IfOk result
            (λ p. HasGiven ids world.now time p self.old.held self.new.held) }
        ensures number { self.new.number ≡ self.old.number }
        ensures refused { IfErr result (λ e. RefusesPiece self.old.held e) }
        ensures unchanged { OnErr result (self.new ≡ self.old) }
        ensures small { IfOk result (λ p. length p.bytes ≤ piece_size_limit) }
    {
        let (piece, next) = self.piece_here(alloc, world, ids, time)?;
        self.advance(next);
        Ok(piece)
    }

    // Returns the piece at the cursor, and the cursor after it.
    fn piece_here(
        &self,
        alloc: Global,
        world: &World,
        ids: IdSize,
        time: u64,
    ) -> Result<(Piece, Cursor), Refusal>
        requires { CanGive ids world.now self.now.held }
        ensures piece { IfOk result (λ p. IsNextPiece ids world.now time self.now.held p.0 p.1) }
        ensures refused { IfErr result (λ e. RefusesPiece self.now.held e) }
        ensures small { IfOk result (λ p. length p.0.bytes ≤ piece_size_limit) }
    {
        match &self.held {
            Held::Kept { pin, cursor, .. } => {
                piece_from(alloc, &PinView::new(pin, world, ids), *cursor, time)
            }
            Held::Lost { cause, .. } => Err(Refusal::Lost { cause: *cause }),
        }
    }

    // Moves the cursor on and counts the piece that was given, unless the cursor is past the last piece.
    fn advance(&mut self, to: Cursor)
        requires { MayCount self.old.held }
        ensures { self.new ≡ record self.old { held = held_advanced to self.old.held } }
    {
        if let Held::Kept { cursor, given, .. } = &mut self.held {
            if !matches!(cursor, Cursor::Past) {
                *cursor = to;
                *given += 1;
            }
        }
    }
}
