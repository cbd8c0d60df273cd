//! The layout of the cabling of a building: rooms, racks, panels, ports, cables and labels.
ghost use Rattle.std.specs.Prelude.{◌≡◌, refl};
ghost use Rattle.layout.specs.Cabling.{cabling, kind_of, kind_size, kind_reference};
ghost use Rattle.std.proofs.Common.{rules};

use crate::Layout;

/// The layout of the cabling of a building: the lowest byte of a header names the kind of the object, and the upper 24 bits are
/// free. A header is legal where it names a kind.
#[derive(Clone, Copy)]
pub struct Cabling;

/// A kind of object in the cabling layout.
#[derive(Clone, Copy, PartialEq, Eq, Debug)]
pub enum Kind {
    /// 4 words. References: 1 its first rack, 2 the next room. Plain: 3 its number.
    Room,
    /// 5 words. References: 1 its first panel, 2 the next rack, 3 its room. Plain: 4 its height.
    Rack,
    /// 5 words. References: 1 its first port, 2 the next panel, 3 its rack. Plain: 4 its position.
    Panel,
    /// 5 words. References: 1 the next port, 2 its panel, 4 its cable. Plain: 3 its number.
    Port,
    /// 6 words. References: 1 and 2 its ports, 5 the next cable. Plain: 3 its length in centimetres, 4 its category.
    Cable,
    /// 3 words. References: none. Plain: 1 and 2.
    Label,
}

impl Kind {
    /// The kind that the lowest byte of `header` names: 1 is a room, 2 a rack, 3 a panel, 4 a port, 5 a cable, 6 a label, and
    /// any other none.
    //
    // No `TryFrom`: what names no kind is no error with more to say, and its type would stand for one case.
    pub fn of(header: u32) -> Option<Kind>
        ensures { result ≡ kind_of header }
    {
        let [number, ..] = header.to_le_bytes();
        match number {
            1 => Some(Kind::Room),
            2 => Some(Kind::Rack),
            3 => Some(Kind::Panel),
            4 => Some(Kind::Port),
            5 => Some(Kind::Cable),
            6 => Some(Kind::Label),
            _ => None,
        }
    }

    /// How many words an object of this kind has, the header included.
    pub fn size(self) -> u32
        ensures { result ≡ kind_size self }
    {
        match self {
            Kind::Room => 4,
            Kind::Rack | Kind::Panel | Kind::Port => 5,
            Kind::Cable => 6,
            Kind::Label => 3,
        }
    }

    /// Whether the word at `position` of an object of this kind is a reference.
    pub fn is_reference(self, position: u32) -> bool
        ensures { result ≡ kind_reference self position }
    {
        match self {
            Kind::Room => matches!(position, 1 | 2),
            Kind::Rack | Kind::Panel => matches!(position, 1 | 2 | 3),
            Kind::Port => matches!(position, 1 | 2 | 4),
            Kind::Cable => matches!(position, 1 | 2 | 5),
            Kind::Label => false,
        }
    }
}

impl Layout for Cabling {
    ghost shape = { cabling };

    ghost IMAGE_SIGN = { 2 };

    const IMAGE_SIGN: u32 = 2;

    ghost SAMPLE_HEADER = { 6 };

    const SAMPLE_HEADER: u32 = 6;

    ghost lawful = { Prim.search rules };

    ghost sign = { refl };

    ghost sample = { refl };

    fn legal(header: u32) -> bool {
        Kind::of(header).is_some()
    }

    fn size(header: u32) -> u32 {
        Kind::of(header).map_or(0, Kind::size)
    }

    fn is_reference(header: u32, position: u32) -> bool {
        Kind::of(header).is_some_and(|kind| kind.is_reference(position))
    }
}
