// What every crate shares: the four sizes of an element in memory and of a lane, and numbers as bytes.
#![tactic(auto)]

mod numbers;

ghost use Rattle.ground.specs.Sizes.{BytesPromise, SizePromise};

pub use numbers::{number, put};

// A size by its bits, as the scope of work writes them.
#[derive(Clone, Copy, Debug, PartialEq, Eq)]
pub enum Size {
    B8,
    B16,
    B32,
    B64,
}

impl Size {
    pub fn bytes(self) -> u64
        ensures { BytesPromise self result }
    {
        match self {
            Size::B8 => 1,
            Size::B16 => 2,
            Size::B32 => 4,
            Size::B64 => 8,
        }
    }

    // The size that a field of two bits names: 8 << field bits. A field has no other number; a larger one is read as 3.
    #[tactic(auto, unfolding(crate::specs::Sizes::size_of))]
    pub fn of(field: u32) -> Size
        ensures { SizePromise field result }
    {
        match field {
            0 => Size::B8,
            1 => Size::B16,
            2 => Size::B32,
            _ => Size::B64,
        }
    }
}
