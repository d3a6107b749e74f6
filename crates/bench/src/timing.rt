use std::io;
use std::time::Instant;

/// Nanoseconds of one round of a step that is made so many times, and told each time which round it is.
pub fn time<F: FnMut(usize)>(rt: &HostRuntime, rounds: usize, step: F) -> io::Result<u128>
    requires { F.IsAlwaysCallable step }
{
    let begun = Instant::now(rt)?;
    (0..rounds).for_each(step);
    let nanos = begun.elapsed(rt)?.as_nanos();
    // `as`: no From leads from usize to u128; that nothing is lost is proved, and `try_from` with an arm that cannot come is no plainer
    Ok(nanos.checked_div(rounds as u128).unwrap_or(0))
}
