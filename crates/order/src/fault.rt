//! Why numbers are not put in order.
ghost use Rattle.std.specs.Prelude.{◌≡◌};

use std::alloc::AllocError;

/// Why numbers are not put in order.
#[derive(Clone, Copy, Debug, PartialEq, Eq)]
pub enum OrderFault {
    /// This number lies on a circle of needs, so there is no order.
    Circle(usize),
    /// A growth was refused.
    NoMemory,
}

/// A growth that was refused.
impl From<AllocError> for OrderFault {
    ghost use Rattle.order.specs.declared.fault.OrderFault.TheVariants.{NoMemory};

    ghost from_gives = { λ _ e. e ≡ NoMemory };

    fn from(_: AllocError) -> OrderFault {
        OrderFault::NoMemory
    }
}
