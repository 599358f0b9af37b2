//! Carries pages of three signals through interleaving and back, and says what happened.
#![tactic(auto)]

ghost use Rattle.std.specs.Prelude.{◌≤◌};

use demo::rules::{Rule, Samples, Symbols};
use demo::trips::{place_of, sent_places, trip, unmoved};
use sample::Sample;
use signal::interleave;
use std::io;

/// Says where the first symbols of a page go.
fn show_places(rt: &HostRuntime, sent: &[u32]) -> io::Result<()> {
    for k in [0, 1, 2, 7, 8, 9] {
        if let Some(place) = place_of(sent, k) {
            println!(rt; "  symbol {k} is sent at place {place}")?;
        }
    }
    Ok(())
}

/// Sends the place numbers of a page, and says where the first symbols go.
fn show_sent(
    rt: &HostRuntime,
    name: &str,
    numbers: &mut [u32],
    sent: &mut [u32],
) -> io::Result<()> {
    match sent_places(name, numbers, sent) {
        Ok(()) => show_places(rt, sent),
        Err(fault) => println!(rt; "  {fault}"),
    }
}

/// Carries a page of elements by the rule `R`, and says how many are where they were. The three buffers are those of `trip`.
fn show_trip<R: Rule>(
    rt: &HostRuntime,
    name: &str,
    what: &str,
    page: &mut [R::Item],
    sent: &mut [R::Item],
    back: &mut [R::Item],
) -> io::Result<()> {
    let n = page.len();
    match trip::<R>(name, page, sent, back) {
        Ok(count) if count == n => println!(rt; "  taken back: all {n} {what} are where they were"),
        Ok(count) => println!(rt;
            "  taken back: only the first {count} {what} are where they were"
        ),
        Err(fault) => println!(rt; "  {fault}"),
    }
}

/// Carries one page of a signal from beginning to end: its place numbers, its symbols, then its samples.
/// Inner: it makes the buffers, so a page is no longer than the longest, L1C's.
fn show_signal<const N: usize>(rt: &HostRuntime, name: &str) -> io::Result<()>
    requires { N ≤ 1748 }
{
    println!(rt; "{name}: a page of {N} symbols is interleaved")?;
    show_sent(rt, name, &mut [0; N], &mut [0; N])?;
    show_trip::<Symbols>(rt, name, "symbols", &mut [0; N], &mut [0; N], &mut [0; N])?;
    let zero = Sample::default();
    show_trip::<Samples>(
        rt,
        name,
        "samples",
        &mut [zero; N],
        &mut [zero; N],
        &mut [zero; N],
    )
}

/// Says in words what becomes of a page of 240 symbols that is to go into 239 places under `name`.
fn show_refusal(rt: &HostRuntime, name: &str) -> io::Result<()> {
    let page = [1; 240];
    let found = [7; 239];
    let mut output = found;
    println!(rt; "{name}: a page of 240 symbols is to go into 239 places")?;
    match interleave(name, &page, &mut output) {
        Ok(()) => println!(rt; "  accepted"),
        Err(fault) => {
            let kept = unmoved::<Symbols>(&found, &output);
            println!(rt; "  {fault}")?;
            println!(rt; "  {kept} places of the output are as found")
        }
    }
}

fn main(rt: HostRuntime) -> io::Result<()> {
    println!(rt; "Symbol k of a page is 1 where k has an odd number of one bits, else 0.")?;
    show_signal::<240>(&rt, "I/NAV")?;
    show_signal::<488>(&rt, "F/NAV")?;
    show_signal::<1748>(&rt, "L1C")?;
    show_refusal(&rt, "i/nav")?;
    show_refusal(&rt, "I/NAV")
}
