//! The calls by short names.
ghost use Rattle.life.specs.declared.calls.Call.TheVariants.{Edit as Asked};
ghost use Rattle.model.specs.declared.edits.Edit.TheVariants.{Clear, Copy, Get, Head, New, Peek, Put, Same, Set};
ghost use Rattle.std.specs.Prelude.{◌≡◌};

use life::Call;
use model::Edit;

/// Makes an object with that header at a root.
pub fn new(root: u32, header: u32) -> Call
    ensures { result ≡ Asked (New root header) }
{
    Call::Edit(Edit::New { root, header })
}

/// Stores what root `k` holds in the object at root `i`.
pub fn set(i: u32, position: u32, k: u32) -> Call
    ensures { result ≡ Asked (Set i position k) }
{
    Call::Edit(Edit::Set { i, position, k })
}

/// Loads root `k` from the object at root `i`.
pub fn get(i: u32, position: u32, k: u32) -> Call
    ensures { result ≡ Asked (Get i position k) }
{
    Call::Edit(Edit::Get { i, position, k })
}

/// Stores a word in the object at root `i`.
pub fn put(i: u32, position: u32, word: u32) -> Call
    ensures { result ≡ Asked (Put i position word) }
{
    Call::Edit(Edit::Put { i, position, word })
}

/// Asks for a word of the object at root `i`.
pub fn peek(i: u32, position: u32) -> Call
    ensures { result ≡ Asked (Peek i position) }
{
    Call::Edit(Edit::Peek { i, position })
}

/// Makes root `k` hold what root `i` holds.
pub fn copy(i: u32, k: u32) -> Call
    ensures { result ≡ Asked (Copy i k) }
{
    Call::Edit(Edit::Copy { i, k })
}

/// Makes root `i` nil.
pub fn clear(i: u32) -> Call
    ensures { result ≡ Asked (Clear i) }
{
    Call::Edit(Edit::Clear { i })
}

/// Asks whether two roots hold the same.
pub fn same(i: u32, k: u32) -> Call
    ensures { result ≡ Asked (Same i k) }
{
    Call::Edit(Edit::Same { i, k })
}

/// Asks for the header of the object at root `i`.
pub fn head(i: u32) -> Call
    ensures { result ≡ Asked (Head i) }
{
    Call::Edit(Edit::Head { i })
}
