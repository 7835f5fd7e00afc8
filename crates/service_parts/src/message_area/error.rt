//! Why a part is not put.
ghost use Rattle.std.specs.Prelude.{◌≡◌};
ghost use Rattle.service_parts.specs.declared.message_area.error.PutError.TheVariants.{Memory};

use kd_base::OutOfMemory;

/// Why a part is not put. The area is as it was.
#[derive(Clone, Copy)]
pub enum PutError {
    /// E12: more than 16 parts, or more than NB bytes together.
    TooLong,
    /// Memory ran out.
    Memory,
}

impl From<OutOfMemory> for PutError {
    ghost from_gives = { λ _ e. e ≡ Memory };

    fn from(_: OutOfMemory) -> PutError {
        PutError::Memory
    }
}
