//! The strict check of a whole image.
ghost use Rattle.std.specs.Prelude.{◌≡◌, ℕ, ◌+◌, ◌*◌, ◌<◌, ◌≤◌, fold, OnOk};
ghost use Rattle.image.specs.Content.{headers, words};
ghost use Rattle.image.specs.Pass.{at_place, at_state, state_of};
ghost use Rattle.image.specs.Read.{body_at, body_role, counts_at, judged, object_at, objects_at, read, root_role, roots_at, sign_at, value_at};
ghost use Rattle.image.specs.Numbering.{Exact};
ghost use Rattle.image.specs.Stage.{Follows, WithinBytes, headers_of, summarised, summary_of};

use crate::refusals::{Fault, Refusal};
use crate::source::Reader;
use layout::Layout;

/// What the strict check tells of an image.
#[derive(Clone, Copy, PartialEq, Eq, Debug)]
pub struct Summary {
    /// How many objects it has.
    pub objects: u32,
    /// Its root count.
    pub roots: u32,
    /// How many words its objects take in a heap, their headers included.
    pub words: u64,
}

/// What is told of each object of an image, in order.
//
// A trait and no closure: what the calls of a closure come to is told by a run of them, and what those of a visitor come to by `next`.
pub trait Visitor {
    ghost next: { Self → ℕ → Self };

    /// An object with this header.
    fn object(&mut self, header: u32)
        ensures { self.new ≡ next self.old header };
}

/// A visitor that takes no notice.
#[derive(Clone, Copy)]
pub struct Unwatched;

impl Visitor for Unwatched {
    ghost next = { λ s _. s };

    fn object(&mut self, _header: u32) {}
}

// What a number of an image stands for.
#[derive(Clone, Copy)]
enum Role {
    Plain,
    Reference,
    LastRoot,
}

// The greatest reference so far, after `value` in its role, among `objects` objects.
fn judge(role: Role, objects: u32, greatest: u32, value: u32) -> Result<u32, Fault>
    ensures { result ≡ judged role objects greatest value }
{
    match role {
        Role::Plain => Ok(greatest),
        Role::LastRoot if value == 0 => Err(Fault::Roots),
        Role::Reference | Role::LastRoot => {
            if value > objects || value.saturating_sub(1) > greatest {
                return Err(Fault::Reference);
            }
            Ok(greatest.max(value))
        }
    }
}

// The role of root `i` of `count`.
fn root_role(count: u32, i: u32) -> Role
    requires { i < count }
    ensures { result ≡ root_role count i }
{
    if i + 1 == count {
        Role::LastRoot
    } else {
        Role::Reference
    }
}

// The role of a position of an object with this header.
fn body_role<L: Layout>(header: u32, position: u32) -> Role
    ensures { result ≡ body_role L.shape header position }
{
    if L::is_reference(header, position) {
        Role::Reference
    } else {
        Role::Plain
    }
}

// A pass over the numbers of an image after its counts.
#[derive(Drop)]
struct Pass<'a> {
    reader: Reader<'a>,
    // The object count.
    objects: u32,
    // The greatest reference so far.
    greatest: u32,
}

impl Pass<'_> {
    // One number in its role, in the object `object` or outside objects in 0. Inlined, since a call for each number takes
    // about twice the time.
    #[inline(always)]
    fn value(&mut self, role: Role, object: u32) -> Result<(), Refusal>
        ensures { Follows result (value_at self.old.reader.bytes.now self.old.objects object role (state_of self.old)) (λ _ v. self.new ≡ at_state self.old v.1) }
    {
        let place = self.reader.position();
        let value = self.reader.number(object)?;
        let judged = judge(role, self.objects, self.greatest, value);
        self.greatest = judged.map_err(|fault| fault.at(place, object))?;
        Ok(())
    }

    // The roots.
    fn roots(&mut self, count: u32) -> Result<(), Refusal>
        ensures { Follows result (roots_at self.old.reader.bytes.now self.old.objects count (state_of self.old)) (λ _ v. self.new ≡ at_state self.old v.1) }
    {
        for i in 0..count {
            self.value(root_role(count, i), 0)?;
        }
        Ok(())
    }

    // The words of an object after its header.
    fn body<L: Layout>(&mut self, header: u32, object: u32) -> Result<(), Refusal>
        ensures { Follows result (body_at L.shape self.old.reader.bytes.now self.old.objects object header (state_of self.old)) (λ _ v. self.new ≡ at_state self.old v.1) }
    {
        for position in 1..L::size(header) {
            self.value(body_role::<L>(header, position), object)?;
        }
        Ok(())
    }

    // The object `number`, which has to have been referred to: its header.
    fn object<L: Layout>(&mut self, number: u32) -> Result<u32, Refusal>
        ensures { Follows result (object_at L.shape self.old.reader.bytes.now self.old.objects number (state_of self.old)) (λ header o. (o.0.header ≡ header) × (self.new ≡ at_state self.old o.1)) }
    {
        let place = self.reader.position();
        if number > self.greatest {
            return Err(Fault::NotReferredTo.at(place, number));
        }
        let header = self.reader.number(number)?;
        if !L::legal(header) {
            return Err(Fault::Header.at(place, number));
        }
        self.body::<L>(header, number)?;
        Ok(header)
    }

    // The objects, each told to the visitor: the words that they take.
    fn objects<L: Layout, V: Visitor>(&mut self, visitor: &mut V) -> Result<u64, Refusal>
        ensures { Follows result (objects_at L.shape self.old.reader.bytes.now self.old.objects (state_of self.old)) (λ w os. (w ≡ words L.shape os.0) × (self.new ≡ at_state self.old os.1) × (visitor.new ≡ fold V.next visitor.old (headers os.0))) }
    {
        let mut words = 0;
        for i in 0..self.objects {
            let header = self.object::<L>(i + 1)?;
            words += u64::from(L::size(header));
            visitor.object(header);
        }
        Ok(words)
    }
}

// The sign of the layout.
fn sign<L: Layout>(reader: &mut Reader) -> Result<(), Refusal>
    ensures { Follows result (sign_at L.shape reader.old.bytes.now reader.old.position) (λ _ at. reader.new ≡ at_place reader.old at) }
{
    let place = reader.position();
    if reader.number(0)? != L::IMAGE_SIGN {
        return Err(Fault::Sign.at(place, 0));
    }
    Ok(())
}

// The object count and the root count.
fn counts(reader: &mut Reader) -> Result<(u32, u32), Refusal>
    ensures { Follows result (counts_at reader.old.bytes.now reader.old.position) (λ p c. (c.0 ≡ p) × (reader.new ≡ at_place reader.old c.1)) }
{
    let objects = reader.number(0)?;
    let place = reader.position();
    let roots = reader.number(0)?;
    if roots > 64 {
        return Err(Fault::Roots.at(place, 0));
    }
    Ok((objects, roots))
}

// The whole image, stage after stage.
fn read_image<L: Layout, V: Visitor>(bytes: &[u8], visitor: &mut V) -> Result<Summary, Refusal>
    ensures { Follows result (read L.shape bytes.now) (λ s c. (s ≡ summary_of L.shape c) × (visitor.new ≡ fold V.next visitor.old (headers c.objects))) }
{
    let mut reader = Reader::open(bytes)?;
    sign::<L>(&mut reader)?;
    let (objects, roots) = counts(&mut reader)?;
    let mut pass = Pass {
        reader,
        objects,
        greatest: 0,
    };
    pass.roots(roots)?;
    let words = pass.objects::<L, V>(visitor)?;
    let place = pass.reader.position();
    if place < bytes.len() {
        return Err(Fault::LeftOver.at(place, 0));
    }
    Ok(Summary {
        objects,
        roots,
        words,
    })
}

/// Checks an image of the layout `L` strictly and tells each of its objects to the visitor. If the
/// image is refused, what the visitor was told is left open.
pub fn visit<L: Layout, V: Visitor>(bytes: &[u8], visitor: &mut V) -> Result<Summary, Refusal>
    ensures reads { result ≡ summarised L.shape (read L.shape bytes.now) }
    ensures told { OnOk result (visitor.new ≡ fold V.next visitor.old (headers_of (read L.shape bytes.now))) }
    ensures exact { Exact L.shape bytes.now }
    ensures within { WithinBytes bytes.now result }
{
    read_image::<L, V>(bytes, visitor)
}

/// Checks an image of the layout `L` strictly.
pub fn check<L: Layout>(bytes: &[u8]) -> Result<Summary, Refusal>
    ensures reads { result ≡ summarised L.shape (read L.shape bytes.now) }
    ensures exact { Exact L.shape bytes.now }
    ensures within { WithinBytes bytes.now result }
{
    visit::<L, Unwatched>(bytes, &mut Unwatched)
}
