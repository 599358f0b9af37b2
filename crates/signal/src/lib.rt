//! Pages of navigation signals: interleaving by name, and the way back.
#![tactic(auto)]

ghost use Rattle.fault.specs.Tests.{after_call};
ghost use Rattle.signal.specs.Laws.{Restored, Shapes};
ghost use Rattle.signal.specs.Pages.{Symbols, deinterleaved, fits, flipped, interleaved, moved, shape_of};
ghost use Rattle.std.specs.Prelude.{◌≡◌, true, List, length, is_ok};

use fault::{Fault, Refusal};
use shape::Shape;
use transpose::transpose;

pub mod shape;

/// The shape of a signal's page, or nothing for a name that has none.
/// A name is compared letter by letter, capitals as written.
#[tactic(auto, unfolding(crate::specs::Pages::shape_of))]
pub fn shape_of(name: &str) -> Option<Shape>
    ensures { result ≡ shape_of name.now }
{
    match name {
        "F/NAV" => Some(Shape::new(8, 61)),
        "I/NAV" => Some(Shape::new(8, 30)),
        "L1C" => Some(Shape::new(46, 38)),
        _ => None,
    }
}

/// Moves a page by its shape, or refuses a page that has none.
fn move_page<T: Copy>(shape: Option<Shape>, input: &[T], output: &mut [T]) -> Result<(), Fault>
    ensures answer { result ≡ fits shape (length input.now) (length output.old) }
    ensures places { output.new ≡ after_call result (moved shape input.now) output.old }
{
    let Shape { width, height } = shape.ok_or(Refusal::NoShape)?;
    transpose(input, output, width, height)
}

/// Puts a page into the order in which it is sent.
#[tactic(auto, using(crate::proofs::Restores::page_rules))]
pub fn interleave<T: Copy>(name: &str, page: &[T], output: &mut [T]) -> Result<(), Fault>
    ensures answer { result ≡ fits (shape_of name.now) (length page.now) (length output.old) }
    ensures places { output.new ≡ after_call result (interleaved name.now page.now) output.old }
    ensures symbols { is_ok result ≡ true → Symbols (shape_of name.now) page.now output.new }
    ensures restored { is_ok result ≡ true → deinterleaved name.now output.new ≡ page.now }
{
    move_page(shape_of(name), page, output)
}

/// Puts a page that was sent into order again.
#[tactic(auto, using(crate::proofs::Restores::page_rules))]
pub fn deinterleave<T: Copy>(name: &str, sent: &[T], output: &mut [T]) -> Result<(), Fault>
    ensures answer { result ≡ fits (shape_of name.now) (length sent.now) (length output.old) }
    ensures places { output.new ≡ after_call result (deinterleaved name.now sent.now) output.old }
    ensures symbols { is_ok result ≡ true → Symbols (shape_of name.now) output.new sent.now }
    ensures restored { is_ok result ≡ true → (page : List T) → length page ≡ length sent.now → sent.now ≡ interleaved name.now page → output.new ≡ page }
{
    move_page(shape_of(name).map(Shape::flipped), sent, output)
}

/// The laws of pages.
#[tactic(auto, using(crate::proofs::Names::shapes, crate::proofs::Restores::restored))]
pub fn pages_stand<T>()
    ensures shapes { Shapes }
    ensures restored { Restored T }
{}
