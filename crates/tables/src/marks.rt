//! The marks of objects, by their places.
ghost use Rattle.bitset.specs.Set.{first_of};
ghost use Rattle.tables.specs.Marks.{finished, heavier, made_marked, marks_of, no_marks, shaded};
ghost use Rattle.std.specs.Prelude.{◌≡◌, slice_index};

use bitset::BitSet;

/// Which objects are marked, and which of these still wait for their scan.
///
/// Contracts read it by `marks_of`. It has no `impl Model`, whose value may hold no function, as these sets are.
#[derive(Drop)]
pub struct Marks {
    marked: BitSet<512>,
    pending: BitSet<512>,
    /// For each region the words of its objects that are marked and not pending, as a marking counts them. They stand here and
    /// not with the regions, since they begin anew with each marking.
    weights: [u32; 32],
}

impl Marks {
    /// Nothing is marked.
    pub fn new() -> Marks
        ensures { marks_of result ≡ no_marks }
    {
        Marks {
            marked: BitSet::new(),
            pending: BitSet::new(),
            weights: [0; 32],
        }
    }

    /// Marks the object at a place and makes it pending, unless it is marked already.
    pub fn shade(&mut self, place: u32)
        ensures { marks_of self.new ≡ shaded (marks_of self.old) place }
    {
        if !self.is_marked(place) {
            self.marked.insert(place as usize);
            self.pending.insert(place as usize);
        }
    }

    /// Marks the object of `size` words at a place, without making it pending.
    pub fn mark(&mut self, place: u32, size: u32)
        ensures { marks_of self.new ≡ made_marked (marks_of self.old) place size }
    {
        self.marked.insert(place as usize);
        weigh(&mut self.weights, place / 1024, size);
    }

    /// Nothing is marked any more.
    pub fn clear(&mut self)
        ensures { marks_of self.new ≡ no_marks }
    {
        *self = Marks::new();
    }

    /// Whether the object at a place is marked.
    pub fn is_marked(&self, place: u32) -> bool
        ensures { result ≡ (marks_of self.now).marked place }
    {
        self.marked.contains(place as usize)
    }

    /// Whether the object at a place is pending.
    pub fn is_pending(&self, place: u32) -> bool
        ensures { result ≡ (marks_of self.now).pending place }
    {
        self.pending.contains(place as usize)
    }

    /// The pending object at the lowest place.
    pub fn next_pending(&self) -> Option<u32>
        ensures { result ≡ first_of (marks_of self.now).pending 0 32768 }
    {
        self.pending.lowest().map(|place| place as u32)
    }

    /// The object of `size` words at a place is scanned: it is pending no more, and its words are counted.
    pub fn finish(&mut self, place: u32, size: u32)
        ensures { marks_of self.new ≡ finished (marks_of self.old) place size }
    {
        let region = place / 1024;
        self.pending.remove(place as usize);
        weigh(&mut self.weights, region, size);
    }

    /// The words of a region's objects that are marked and not pending, as this marking has counted them.
    pub fn weight(&self, region: u8) -> u32
        ensures { result ≡ slice_index (marks_of self.now).weights region }
    {
        self.weights.get(region as usize).copied().unwrap_or(0)
    }
}

/// Counts `size` more words in a region.
fn weigh(weights: &mut [u32], region: u32, size: u32)
    ensures { weights.new ≡ heavier weights.old region size }
{
    let g = region as usize;
    // A test of the index, since std says nothing of a slice's elements after `get_mut`.
    if g < weights.len() {
        weights[g] = weights[g].saturating_add(size);
    }
}
