//! What is saved of a graph of objects: what its roots reach, numbered as first met. It is the same for all graphs that are
//! alike, and tells them apart from all others.
//!
//! The functions do nothing. Their contracts state the theorems.
#![tactic(auto)]

ghost use Rattle.layout.specs.Shape.{Shape, Lawful};
ghost use Rattle.canonical.specs.Alike.{AlikeFromContent, OneContent};
ghost use Rattle.canonical.specs.Reaching.{EachReachedOnce};
ghost use Rattle.canonical.specs.Saved.{OneImage, SavedAgain, SavedAlike};
ghost use Rattle.canonical.specs.TiedAlike.{TiedAlike, TiedContent};

/// Each object that the roots reach is saved once, and no other.
pub fn each_reached_object_is_saved_once()
    ensures { (S : Shape) → Lawful S → EachReachedOnce S }
{}

/// Alike graphs have one content, whatever the names of their objects.
pub fn alike_graphs_have_one_content()
    ensures { (S : Shape) → OneContent S }
{}

/// Graphs of one content are alike.
pub fn graphs_of_one_content_are_alike()
    ensures { (S : Shape) → Lawful S → AlikeFromContent S }
{}

/// What is saved of a graph is well numbered, so that there is an image of it, and taken as a graph it is alike.
pub fn what_is_saved_is_well_numbered_and_alike()
    ensures { (S : Shape) → Lawful S → SavedAlike S }
{}

/// A well-numbered content, taken as a graph, is saved as it is.
pub fn what_is_well_numbered_is_saved_again()
    ensures { (S : Shape) → Lawful S → SavedAgain S }
{}

/// Two graphs have one image exactly if they are alike.
pub fn graphs_have_one_image_exactly_if_alike()
    ensures { (S : Shape) → Lawful S → OneImage S }
{}

/// A heap that is tied to the heap that never collects is alike.
pub fn a_tied_heap_is_alike()
    ensures { (S : Shape) → Lawful S → TiedAlike S }
{}

/// A heap that is tied to the heap that never collects has the same content.
pub fn a_tied_heap_has_the_same_content()
    ensures { (S : Shape) → Lawful S → TiedContent S }
{}
