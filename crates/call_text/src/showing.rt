// What a call answered, as its line; and the lists and the data that were lent it.
use crate::making::{Call, Lent, Told};
use crate::record;
use commands::control::TemperatureSource;
use measuring::degrees::Temperature;
use std::{fmt, io};
use text::{Hex, Spaced};

// The first so many of a list, or all where it has no more.
fn first<T>(list: &[T], count: usize) -> &[T] {
    list.get(..count).unwrap_or(list)
}

// The inputs of a reading, each ahead of what was read on it.
#[derive(Drop)]
struct Pairs<'a>(&'a [u8], &'a [i32]);

impl fmt::Display for Pairs<'_> {
    fn fmt<W: fmt::Write>(&self, f: &mut fmt::Formatter<W>) -> fmt::Result {
        for (input, millivolts) in self.0.iter().zip(self.1) {
            write!(f, " {input} {millivolts}")?;
        }
        Ok(())
    }
}

// Of the lists the first `count`.
pub(crate) fn answer(rt: &impl Print, told: Told, lent: &Lent, count: usize) -> io::Result<()> {
    let list = first(&lent.list, count);
    match told {
        Told::Done => println!(rt; "done"),
        Told::Init(values) => lines::init(rt, values),
        Told::Cells => println!(rt; "cells{}", Spaced(list)),
        Told::Wired => println!(rt; "wired{}", Pairs(first(&lent.inputs, count), list)),
        Told::Current(current) => println!(rt; "current {}", current.0),
        Told::Voltage(voltage) => println!(rt; "voltage {}", voltage.0),
        Told::Temperature(Temperature::InternalDie(t)) => println!(rt; "temperature die {}", t.0),
        Told::Temperature(Temperature::ExternalThermistor(t)) => {
            println!(rt; "temperature thermistor {}", t.0)
        }
        Told::Balancing(cells) => println!(rt; "balancing {cells}"),
        Told::Status(stat) => println!(rt; "status {}", stat.bits),
        Told::Charging(on) => println!(rt; "charging {}", on as u8),
        Told::Source(TemperatureSource::InternalDie) => println!(rt; "source die"),
        Told::Source(TemperatureSource::ExternalThermistor) => println!(rt; "source thermistor"),
        Told::CellOn(cell) => println!(rt; "cellon {cell}"),
        Told::BalanceGet(set) => println!(rt; "balanceget {set}"),
        Told::Spread(spread) => println!(rt; "spread{}", Spaced(&record::figures(spread))),
    }
}

// What was lent, after a refusal too: the data, and where asked the lists whole.
pub(crate) fn lent(rt: &impl Print, call: Call, lent: &Lent, lists: bool) -> io::Result<()> {
    match (call.tag, call.value) {
        (0x32, &[_, high, low]) => {
            let count = numbers::be_u16(high, low) as usize;
            println!(rt; "data{}", Hex(first(&lent.data, count)))
        }
        (0x22, &[n]) if lists => println!(rt; "list{}", Spaced(first(&lent.list, n as usize))),
        (0x34, &[m, n]) if lists => {
            println!(rt; "inputs{}", Spaced(first(&lent.inputs, m as usize)))?;
            println!(rt; "list{}", Spaced(first(&lent.list, n as usize)))
        }
        _ => Ok(()),
    }
}
