//! The regions of a heap, and where a new object goes.
ghost use Rattle.std.specs.Prelude.{◌≡◌, ◌+◌, ◌-◌, ◌≤◌, Some};
ghost use Rattle.bitset.specs.Set.{tally};
ghost use Rattle.tables.specs.Regions.{added_live, appended, closing, first_free, is_free_at, making, next_free, opened, opening, region_at, room, taken, with_live_at, with_region};

use crate::region::{Kind, Region};

/// The words of a region.
const WORDS: u32 = 1024;

/// The regions of a heap: at most 32. Their table is an array in the struct, with a count beside it, since a heap allocates
/// nothing.
#[derive(Drop)]
pub struct Regions {
    /// Each region; those from `count` on are not used.
    pub entries: [Region; 32],
    /// How many regions the store has, of the first 32.
    pub count: u8,
    /// The region opened last, or 0, from where the first search goes.
    pub last: u8,
    /// How many times a region was opened; it stops at 4,294,967,295.
    pub openings: u32,
}

impl Regions {
    /// The regions of a store of `words` words, all free.
    pub fn new(words: usize) -> Regions
        ensures { result ≡ making words }
    {
        Regions {
            entries: [Region::default(); 32],
            count: (words / WORDS as usize).min(32) as u8,
            last: 0,
            openings: 0,
        }
    }

    /// The region with a number; a blank one where there is none.
    pub fn get(&self, g: u8) -> Region
        ensures { result ≡ region_at self.now.entries g }
    {
        self.entries.get(g as usize).copied().unwrap_or_default()
    }

    /// Puts a region under a number.
    fn put(&mut self, g: u8, region: Region)
        ensures { self.new ≡ with_region self.old g region }
    {
        let g = g as usize;
        // A test of the index, since std says nothing of an array's elements after `get_mut`.
        if g < self.entries.len() {
            self.entries[g] = region;
        }
    }

    /// Whether a region is free.
    fn is_free(&self, g: u8) -> bool
        ensures { result ≡ is_free_at self.now.entries g }
    {
        self.get(g).kind == Kind::Free
    }

    /// How many regions are free.
    pub fn count_free(&self) -> u32
        ensures { result ≡ tally (is_free_at self.now.entries) 0 self.now.count }
    {
        (0..self.count).filter(|&g| self.is_free(g)).count() as u32
    }

    /// The first free region from `a` to below `b`.
    fn first_free(&self, a: u8, b: u8) -> Option<u8>
        ensures { result ≡ first_free self.now.entries a (b - a) }
    {
        (a..b).find(|&g| self.is_free(g))
    }

    /// The region to open next: the first free one from the one opened last on, then from 0.
    fn next_free(&self) -> Option<u8>
        ensures { result ≡ next_free self.now }
    {
        self.first_free(self.last, self.count)
            .or_else(|| self.first_free(0, self.last))
    }

    /// Whether `size` more words go into the open region.
    fn has_room(&self, size: u32) -> bool
        ensures { result ≡ room self.now size }
    {
        let region = self.get(self.last);
        region.kind == Kind::Open
            && region
                .fill
                .checked_add(size)
                .is_some_and(|fill| fill <= WORDS)
    }

    /// The region opened last closes, if it is open.
    fn close(&mut self)
        ensures { self.new ≡ closing self.old }
    {
        let region = self.get(self.last);
        if region.kind == Kind::Open {
            self.put(
                self.last,
                Region {
                    kind: Kind::Closed,
                    ..region
                },
            );
        }
    }

    /// Opens a region with its first `size` words used.
    fn open(&mut self, g: u8, size: u32)
        ensures { self.new ≡ opened self.old g size }
    {
        self.put(
            g,
            Region {
                kind: Kind::Open,
                fill: size,
                live: 0,
                stamp: self.openings,
            },
        );
        self.last = g;
        self.openings = self.openings.saturating_add(1);
    }

    /// Closes the open region and opens another for `size` words, if one is free. The answer is where they begin.
    pub fn open_next(&mut self, size: u32) -> Option<u32>
        ensures { (result, self.new) ≡ opening self.old size }
    {
        let g = self.next_free()?;
        self.close();
        self.open(g, size);
        Some(WORDS * u32::from(g))
    }

    /// Uses `size` words at the end of the region opened last. The answer is where they begin.
    fn append(&mut self, size: u32) -> u32
        requires { ((region_at self.old.entries self.old.last).fill + size) ≤ 1024 }
        ensures { (Some result, self.new) ≡ appended self.old size }
    {
        let region = self.get(self.last);
        let fill = region.fill + size;
        self.put(self.last, Region { fill, ..region });
        WORDS * u32::from(self.last) + region.fill
    }

    /// Takes `size` words for a new object: in the open region if it has room, or else in another that opens, if at least two
    /// are free. The answer is where they begin; where there is none, nothing changes.
    pub fn take(&mut self, size: u32) -> Option<u32>
        ensures { (result, self.new) ≡ taken self.old size }
    {
        if self.has_room(size) {
            return Some(self.append(size));
        }
        if self.count_free() < 2 {
            return None;
        }
        self.open_next(size)
    }

    /// Sets the live count of region `g`.
    pub fn set_live(&mut self, g: u8, live: u32)
        ensures { self.new ≡ with_live_at self.old g live }
    {
        let region = self.get(g);
        self.put(g, Region { live, ..region });
    }

    /// Counts `size` more live words in region `g`.
    pub fn add_live(&mut self, g: u8, size: u32)
        ensures { self.new ≡ added_live self.old g size }
    {
        let live = self.get(g).live.saturating_add(size);
        self.set_live(g, live);
    }
}
