//! The heap that never collects, as it runs.
ghost use Rattle.std.specs.Prelude.{◌≡◌, suc, ◌-◌, true, cond, length, is_ok, Ok, Err, MatchResult};
ghost use Rattle.model.specs.Edits.{start, numbered, word_at, with_word, with_object, held_number, new, set_reference, get_reference, put_word, peek, copy, clear, same, head, edited};
ghost use Rattle.model.specs.Held.{makes};
ghost use Rattle.model.specs.declared.edits.Refusal.TheVariants.{WrongPosition};

use crate::edits::{Edit, Refusal, Reply};
use crate::object::Object;
use crate::roots::root_index;
use layout::{Layout, is_plain};
use std::alloc::{AllocError, Global};
use std::marker::PhantomData;

/// The heap that never collects: its objects in the order in which they were made, and 64 roots. A reference is the number of
/// an object, from 1, and 0 is nil, as docs/HEAP.md and the definitions have it. To a contract the heap is its content.
#[derive(Drop)]
pub struct Model<L: Layout> {
    layout: PhantomData<L>,
    heap: Global,
    roots: [u32; 64],
    objects: Vec<Object>,
}

impl<L: Layout> std::marker::Model for Model<L> {
    ghost use Rattle.image.specs.Content.{Content};

    ghost Value = { Content };

    ghost use Rattle.model.specs.Held.{content};

    ghost view = { content };
}

impl<L: Layout> Model<L> {
    /// The heap with no objects and 64 nil roots.
    pub fn empty(heap: Global) -> Model<L>
        ensures { result ≡ start }
    {
        Self {
            layout: PhantomData,
            heap,
            roots: [0; 64],
            objects: Vec::new(heap),
        }
    }

    /// The header of object `number`, or 0 where there is none.
    fn header(&self, number: u32) -> u32
        ensures { result ≡ (numbered self.now number).header }
    {
        self.objects
            .get(place(number))
            .map_or(0, |object| object.header)
    }

    /// The word at `position` of object `number`, or 0 where there is none.
    fn word(&self, number: u32, position: u32) -> u32
        ensures { result ≡ word_at (numbered self.now number) position }
    {
        self.objects
            .get(place(number))
            .map_or(0, |object| object.word(place(position)))
    }

    /// Puts `word` at `position` of object `number`. Where there is none it alters nothing.
    fn put_word(&mut self, number: u32, position: u32, word: u32)
        ensures { self.new ≡ with_word self.old number position word }
    {
        if let Some(object) = self.objects.get_mut(place(number)) {
            object.put(place(position), word);
        }
    }

    /// Adds an object with a body of zeros, and gives its number. For want of memory, or of a number that fits, it adds nothing.
    fn add(&mut self, header: u32) -> Result<u32, AllocError>
        ensures { MatchResult result (λ n. (n ≡ suc (length self.old.objects)) × (self.new ≡ with_object L.shape self.old header)) (λ _. self.new ≡ self.old) }
    {
        let Ok(number) = u32::try_from(self.objects.len() + 1) else {
            return Err(AllocError);
        };
        let object = Object::blank(self.heap, header, place(L::size(header)))?;
        self.objects.push(object)?;
        Ok(number)
    }

    /// The number of the object that root `i` holds.
    fn held(&self, i: u32) -> Result<u32, Refusal>
        ensures { result ≡ held_number self.now i }
    {
        let number = self.roots[root_index(i)?];
        (number != 0).then_some(number).ok_or(Refusal::RootNil)
    }

    /// The number of the object that root `i` holds, if its header has what is wanted at the position.
    fn held_where<F: FnOnce(u32) -> bool>(&self, i: u32, has: F) -> Result<u32, Refusal>
        requires { F.IsAlwaysCallable has }
        ensures { MatchResult (held_number self.now i) (λ n. F.post has (numbered self.now n).header (is_ok result) × (result ≡ cond (is_ok result) (Ok n) (Err WrongPosition))) (λ why. result ≡ Err why) }
    {
        let number = self.held(i)?;
        has(self.header(number))
            .then_some(number)
            .ok_or(Refusal::WrongPosition)
    }

    /// Makes an object with that header and a body of zeros; the root then holds it.
    ///
    /// `AllocError` says that memory is wanting, or that the number of the object would not fit a `u32`. Then nothing is
    /// altered.
    pub fn new(&mut self, root: u32, header: u32) -> Result<Result<(), Refusal>, AllocError>
        ensures { MatchResult result (λ reply. (reply, self.new) ≡ new L.shape self.old root header) (λ _. (self.new ≡ self.old) × (makes L.shape (Edit.New root header) ≡ true)) }
    {
        // `?` answers want of memory here, so a refusal is passed on by hand.
        let index = match root_index(root) {
            Ok(index) if L::legal(header) => index,
            Ok(_) => return Ok(Err(Refusal::IllegalHeader)),
            Err(refusal) => return Ok(Err(refusal)),
        };
        self.roots[index] = self.add(header)?;
        Ok(Ok(()))
    }

    /// Stores what root `k` holds at a reference position of the object that root `i` holds.
    pub fn set(&mut self, i: u32, position: u32, k: u32) -> Result<(), Refusal>
        ensures { (result, self.new) ≡ set_reference L.shape self.old i position k }
    {
        let reference = self.roots[root_index(k)?];
        let number = self.held_where(i, |header| L::is_reference(header, position))?;
        self.put_word(number, position, reference);
        Ok(())
    }

    /// Loads root `k` from a reference position of the object that root `i` holds.
    pub fn get(&mut self, i: u32, position: u32, k: u32) -> Result<(), Refusal>
        ensures { (result, self.new) ≡ get_reference L.shape self.old i position k }
    {
        let loaded = root_index(k)?;
        let number = self.held_where(i, |header| L::is_reference(header, position))?;
        self.roots[loaded] = self.word(number, position);
        Ok(())
    }

    /// Stores a word at a plain position of the object that root `i` holds.
    pub fn put(&mut self, i: u32, position: u32, word: u32) -> Result<(), Refusal>
        ensures { (result, self.new) ≡ put_word L.shape self.old i position word }
    {
        let number = self.held_where(i, |header| is_plain::<L>(header, position))?;
        self.put_word(number, position, word);
        Ok(())
    }

    /// The word at a plain position of the object that root `i` holds.
    pub fn peek(&self, i: u32, position: u32) -> Result<u32, Refusal>
        ensures { (result, self.now) ≡ peek L.shape self.now i position }
    {
        let number = self.held_where(i, |header| is_plain::<L>(header, position))?;
        Ok(self.word(number, position))
    }

    /// Makes root `k` hold what root `i` holds.
    pub fn copy(&mut self, i: u32, k: u32) -> Result<(), Refusal>
        ensures { (result, self.new) ≡ copy self.old i k }
    {
        self.roots[root_index(k)?] = self.roots[root_index(i)?];
        Ok(())
    }

    /// Makes root `i` nil.
    pub fn clear(&mut self, i: u32) -> Result<(), Refusal>
        ensures { (result, self.new) ≡ clear self.old i }
    {
        self.roots[root_index(i)?] = 0;
        Ok(())
    }

    /// Whether two roots hold the same.
    pub fn same(&self, i: u32, k: u32) -> Result<bool, Refusal>
        ensures { (result, self.now) ≡ same self.now i k }
    {
        Ok(self.roots[root_index(i)?] == self.roots[root_index(k)?])
    }

    /// The header of the object that root `i` holds.
    pub fn head(&self, i: u32) -> Result<u32, Refusal>
        ensures { (result, self.now) ≡ head self.now i }
    {
        Ok(self.header(self.held(i)?))
    }

    /// Does `edit`. `AllocError` is the answer of `new`, and nothing is altered then.
    pub fn edit(&mut self, edit: Edit) -> Result<Result<Reply, Refusal>, AllocError>
        ensures { MatchResult result (λ reply. (reply, self.new) ≡ edited L.shape self.old edit) (λ _. (self.new ≡ self.old) × (makes L.shape edit ≡ true)) }
    {
        // The same match as in a life: a trait for both heaps would have nine calls for it.
        Ok(match edit {
            Edit::New { root, header } => self.new(root, header)?.map(|()| Reply::Granted),
            Edit::Set { i, position, k } => self.set(i, position, k).map(|()| Reply::Granted),
            Edit::Get { i, position, k } => self.get(i, position, k).map(|()| Reply::Granted),
            Edit::Put { i, position, word } => {
                self.put(i, position, word).map(|()| Reply::Granted)
            }
            Edit::Peek { i, position } => self.peek(i, position).map(Reply::Word),
            Edit::Copy { i, k } => self.copy(i, k).map(|()| Reply::Granted),
            Edit::Clear { i } => self.clear(i).map(|()| Reply::Granted),
            Edit::Same { i, k } => self.same(i, k).map(Reply::Same),
            Edit::Head { i } => self.head(i).map(Reply::Word),
        })
    }
}

/// The place, from 0, of what has that number, from 1.
fn place(number: u32) -> usize
    ensures { result ≡ number - 1 }
{
    number.saturating_sub(1) as usize
}
