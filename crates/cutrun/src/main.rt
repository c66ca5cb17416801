// Demand 3 run on model chips, with check bytes and without: `init`, and `balance_set`, are cut at each of their transfers after each number of its
// bytes, once and twice, and then made again on a whole bus: with the record that the cut left, with a new record, and of another configuration or
// set.
#![tactic(auto)]

use bench::Start;
use bq769x0::BQ769x0;
use report::Case;
use std::io;

mod bench;
mod call;
mod cases;
mod report;
mod tally;
mod twice;

fn case(name: &'static str, start: Start) -> Case {
    Case { name, start }
}

fn accepted(rt: &impl Print, check: bool) -> io::Result<()> {
    case("BQ76920", cases::all_zero(check)).all(rt, cases::as_upper())?;
    case("BQ76930", cases::not_zero(check)).all(rt, cases::as_example())?;
    case("BQ76940 again", cases::again(check)).all(rt, cases::as_example())
}

fn refused(rt: &impl Print, check: bool) -> io::Result<()> {
    for config in cases::refused_inits() {
        case("BQ76940 refused", cases::set_up(check, config)).all(rt, cases::as_upper())?;
    }
    Ok(())
}

fn inits(rt: &impl Print) -> io::Result<()> {
    accepted(rt, false)?;
    accepted(rt, true)?;
    refused(rt, false)?;
    refused(rt, true)?;
    let plain = case("BQ76920", cases::all_zero(false));
    let checked = case("BQ76920", cases::all_zero(true));
    twice::all(rt, &plain)?;
    twice::all(rt, &checked)?;
    plain.shown(rt)?;
    checked.shown(rt)
}

fn sets(rt: &impl Print, check: bool) -> io::Result<()> {
    let second = cases::second();
    for (name, x) in [
        ("a set on a BQ76920", BQ769x0::BQ76920),
        ("a set on a BQ76930", BQ769x0::BQ76930),
        ("a set on a BQ76940", BQ769x0::BQ76940),
    ] {
        let set = case(name, cases::set(x, check));
        set.all(rt, second)?;
        twice::all(rt, &set)?;
    }
    for call in cases::refused_sets() {
        let start = cases::with_others_on(BQ769x0::BQ76930, check, call);
        case("a set refused", start).all(rt, second)?;
    }
    case("input 1 for 6", cases::six_then_one(check)).shown(rt)
}

fn main(rt: HostRuntime) -> io::Result<()> {
    inits(&rt)?;
    sets(&rt, false)?;
    sets(&rt, true)
}
