// Two cuts in a row, at each pair of places, and whether the call after them ends as if nothing had been cut before it.
use crate::bench::{Outcome, Place, Start};
use crate::report::Case;
use crate::tally::Tally;
use std::io;

// A line where it ended otherwise.
fn is_same(
    rt: &impl Print,
    first: Place,
    second: Place,
    start: Start,
    whole: &Outcome,
) -> io::Result<bool> {
    let again = start.run(Some(second)).left(start.call).run(None);
    let same = again.is_as(whole);
    if !same {
        println!(rt; "cut twice{first}{second}: DIFFERS")?;
    }
    Ok(same)
}

pub(crate) fn all(rt: &impl Print, case: &Case) -> io::Result<()> {
    let start = case.start;
    let whole = start.run(None);
    let mut tally = Tally::default();
    whole.at_each_place(|first| {
        let cut = start.run(Some(first)).left(start.call);
        whole.at_each_place(|second| {
            tally.count(is_same(rt, first, second, cut, &whole)?);
            Ok(())
        })
    })?;
    println!(rt;
        "{case}: cut twice at {} pairs of places, then as if never cut: {} again",
        tally.tried, tally.same
    )
}
