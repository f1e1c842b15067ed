//! The places of the guide's lists.
ghost use Rattle.std.specs.Prelude.{◌⊎◌, ◌<◌};
ghost use Rattle.cj_feature.specs.declared.feature.search.near.slot.Held.TheVariants.{Nothing, Ready, Finished};
ghost use Rattle.cj_feature.specs.inner.Slots.{SlotHolds};

/// What a slot holds: a city object, by its number. One that is finished was found in the guide.
#[derive(Clone, Copy)]
pub enum Held {
    Nothing,
    Ready(u32),
    Finished(u32),
}

/// A place for a city object. It takes 4 bytes of the stack, half as many as what it holds: 0 is
/// none, and `FINISHED` is added to the number of one that is finished.
#[derive(Clone, Copy)]
pub struct Slot {
    packed: u32,
}

const FINISHED: u32 = 2_147_483_648;

/// A slot that holds nothing.
pub const EMPTY: Slot = Slot { packed: 0 };

impl Slot {
    /// Returns a slot that holds this city object, or nothing if the number is 0 or too large.
    pub fn ready(number: u32) -> Slot
        ensures { SlotHolds result (Ready number) ⊎ SlotHolds result Nothing }
    {
        if number < FINISHED {
            Slot { packed: number }
        } else {
            EMPTY
        }
    }

    /// Returns a slot that holds this city object, which is finished.
    pub fn finished(number: u32) -> Slot
        requires { number < 2147483648 }
        ensures { SlotHolds result (Finished number) }
    {
        Slot {
            packed: number + FINISHED,
        }
    }

    /// Returns what it holds.
    pub fn held(self) -> Held
        ensures { SlotHolds self result }
    {
        if self.packed == 0 {
            Held::Nothing
        } else if self.packed < FINISHED {
            Held::Ready(self.packed)
        } else {
            Held::Finished(self.packed - FINISHED)
        }
    }

    /// Returns whether the city object that it holds is finished.
    pub fn is_finished(self) -> bool {
        self.packed >= FINISHED
    }

    /// Returns the number of the name of the city object that it holds.
    pub fn name(self) -> u32 {
        (self.packed % FINISHED).saturating_sub(1)
    }
}
