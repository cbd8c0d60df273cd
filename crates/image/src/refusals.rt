//! What is wrong with an image, and where.
ghost use Rattle.image.specs.Read.{refusal_of};
ghost use Rattle.std.specs.Prelude.{◌≡◌};

/// What is wrong with an image.
#[derive(Clone, Copy, PartialEq, Eq, Debug)]
pub enum Fault {
    /// A number ends early, is not in its shortest form or has more than 32 bits.
    Number(leb128::Fault),
    /// The first two bytes are not `43 4D`.
    Start,
    /// The sign is that of another layout.
    Sign,
    /// The root count is above 64, or the last root is nil.
    Roots,
    /// A header is not legal.
    Header,
    /// A reference is above the object count, or above the greatest so far by more than one.
    Reference,
    /// An object is due that nothing has referred to.
    NotReferredTo,
    /// Bytes follow the last object.
    LeftOver,
}

/// The number by which the fault is reported.
impl From<Fault> for u32 {
    ghost from_gives = { λ fault number. number ≡ refusal_of fault };

    fn from(fault: Fault) -> u32 {
        match fault {
            Fault::Number(fault) => u32::from(fault),
            Fault::Start => 13,
            Fault::Sign => 14,
            Fault::Roots => 15,
            Fault::Header => 16,
            Fault::Reference => 17,
            Fault::NotReferredTo => 18,
            Fault::LeftOver => 19,
        }
    }
}

/// Why an image is refused.
#[derive(Clone, Copy, PartialEq, Eq, Debug)]
pub struct Refusal {
    /// What is wrong.
    pub fault: Fault,
    /// The byte at which it is reported.
    pub place: usize,
    /// The number of the object that was begun or due there, or 0 outside objects.
    pub object: u32,
}

impl Fault {
    /// A refusal for this fault, which is reported at `place` in `object`, or in 0 outside objects.
    pub(crate) fn at(self, place: usize, object: u32) -> Refusal
        ensures { result ≡ record { fault = self; place = place; object = object } }
    {
        Refusal {
            fault: self,
            place,
            object,
        }
    }
}
