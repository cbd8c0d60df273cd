//! Where the objects of an image go in a heap of four regions.
ghost use Rattle.verdict.specs.Space.{placed_header, space_after, start};
ghost use Rattle.std.specs.Prelude.{◌≡◌};

use image::Visitor;
use layout::{Cabling, Layout};

/// The words of a region.
const REGION: u32 = 1024;

/// The regions that are free, and the words that are left in the open one, 0 if none is open.
#[derive(Clone, Copy)]
pub struct Space {
    free: u32,
    left: u32,
}

impl Space {
    /// What is left after one more object of `size` words, if it finds space.
    fn after(self, size: u32) -> Option<Space>
        ensures { result ≡ space_after self size }
    {
        if size <= self.left {
            return Some(Space {
                left: self.left - size,
                ..self
            });
        }
        if self.free < 2 {
            return None;
        }
        Some(Space {
            free: self.free - 1,
            left: REGION.saturating_sub(size),
        })
    }
}

/// What is left for further objects, or nothing once an object found no space.
#[derive(Clone, Copy)]
pub struct Placement {
    pub space: Option<Space>,
}

impl Placement {
    /// Four free regions.
    pub fn new() -> Placement
        ensures { result ≡ start }
    {
        Placement {
            space: Some(Space { free: 4, left: 0 }),
        }
    }
}

impl Visitor for Placement {
    ghost next = { placed_header };

    fn object(&mut self, header: u32) {
        self.space = self
            .space
            .and_then(|space| space.after(Cabling::size(header)));
    }
}
