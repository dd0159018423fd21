// What is printed.
use crate::pairs::Pair;
use crate::trial::Tally;

pub(crate) fn word(good: bool) -> &'static str {
    if good { "ok" } else { "BAD" }
}

fn show_tally(rt: &impl Print, what: &str, tally: Tally) -> anyhow::Result<()> {
    let Tally {
        cuts,
        old,
        new,
        other,
    } = tally;
    println!(rt; "  {what}: {cuts} cuts, {old} old, {new} new, {other} other")?;
    Ok(())
}

// The cuts of the replacement and of the recovery, and whether both are as the rules say.
pub(crate) fn show_sweep(
    rt: &impl Print,
    name: &str,
    pair: &Pair,
    seen: (Tally, Tally),
    good: bool,
) -> anyhow::Result<()> {
    let (cut, again) = seen;
    println!(rt; "{name}, changed blocks {}: {}", pair.count(), word(good))?;
    show_tally(rt, "replacement", cut)?;
    show_tally(rt, "recovery", again)
}
