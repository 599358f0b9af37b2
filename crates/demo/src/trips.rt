//! Pages sent and put in order again, and where their symbols went. The buffers of a trip stay three arguments: a struct
//! of three `&mut` would have to promise that it keeps each, and each has a clause of its own.
ghost use Rattle.std.specs.Prelude.{◌≡◌, ℕ, ◌<◌, ◌≤◌, map, length, Ok, Err, MatchOption, MatchResult, ◌≢◌, slice_index, slice_index_or};
ghost use Rattle.demo.specs.Rules.{number_at};
ghost use Rattle.demo.specs.Trips.{paged, tripped};
ghost use Rattle.fault.specs.Tests.{after_call};
ghost use Rattle.places.specs.Places.{same};
ghost use Rattle.signal.specs.Pages.{interleaved};

use crate::rules::{Numbers, Rule, fill};
use fault::Fault;
use signal::{deinterleave, interleave};

/// Sends a page into `sent`, and puts it in order again in `back`.
pub fn round_trip<T: Copy>(
    name: &str,
    page: &[T],
    sent: &mut [T],
    back: &mut [T],
) -> Result<(), Fault>
    ensures answer { result ≡ tripped name.now (length page.now) (length sent.old) (length back.old) }
    ensures sent { sent.new ≡ after_call (paged name.now (length page.now) (length sent.old)) (interleaved name.now page.now) sent.old }
    ensures back { back.new ≡ after_call result page.now back.old }
{
    interleave(name, page, sent)?;
    deinterleave(name, sent, back)
}

/// How many places from the first on hold the same element in both.
pub fn unmoved<R: Rule>(a: &[R::Item], b: &[R::Item]) -> usize
    ensures within { (result ≤ length a.now) × (result ≤ length b.now) }
    ensures same { (k : ℕ) (d : R.Item) → k < result → slice_index_or a.now k d ≡ slice_index_or b.now k d }
    ensures stops { (d : R.Item) → result < length a.now → result < length b.now → slice_index_or a.now result d ≢ slice_index_or b.now result d }
    ensures all { a.now ≡ b.now → result ≡ length a.now }
{
    // cut to one length, so that a step of the chain is one test and not two
    let both = a.len().min(b.len());
    let pairs = a[..both].iter().zip(&b[..both]);
    pairs.take_while(|(x, y)| R::same(**x, **y)).count()
}

/// Fills a page by the rule `R`, sends it and takes it back; answers how many elements are where they were.
pub fn trip<R: Rule>(
    name: &str,
    page: &mut [R::Item],
    sent: &mut [R::Item],
    back: &mut [R::Item],
) -> Result<usize, Fault>
    ensures count { MatchResult result (λ count. (tripped name.now (length page.old) (length sent.old) (length back.old) ≡ Ok tt) × (count ≡ length page.old)) (λ f. tripped name.now (length page.old) (length sent.old) (length back.old) ≡ Err f) }
    ensures page { page.new ≡ map R.Rule.at (same (length page.old)) }
    ensures sent { sent.new ≡ after_call (paged name.now (length page.old) (length sent.old)) (interleaved name.now (map R.Rule.at (same (length page.old)))) sent.old }
    ensures back { back.new ≡ after_call (tripped name.now (length page.old) (length sent.old) (length back.old)) (map R.Rule.at (same (length page.old))) back.old }
{
    fill::<R>(page);
    round_trip(name, page, sent, back)?;
    Ok(unmoved::<R>(page, back))
}

/// Sends the numbers of the places of a page, which shows where each symbol goes.
pub fn sent_places(name: &str, numbers: &mut [u32], sent: &mut [u32]) -> Result<(), Fault>
    ensures answer { result ≡ paged name.now (length numbers.old) (length sent.old) }
    ensures numbers { numbers.new ≡ map number_at (same (length numbers.old)) }
    ensures sent { sent.new ≡ after_call result (interleaved name.now (map number_at (same (length numbers.old)))) sent.old }
{
    fill::<Numbers>(numbers);
    interleave(name, numbers, sent)
}

/// The first place at which the number `k` stands.
pub fn place_of(places: &[u32], k: u32) -> Option<usize>
    ensures { MatchOption result ((q : ℕ) → q < length places.now → slice_index places.now q ≢ k) (λ p. (p < length places.now) × (slice_index places.now p ≡ k) × ((q : ℕ) → q < p → slice_index places.now q ≢ k)) }
{
    places.iter().position(|number| *number == k)
}
