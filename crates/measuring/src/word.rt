// Two registers as one number, the high byte first.
#![tactic(auto, using(commands::proofs::Steps::steps), unfolding(crate::specs::Word::read_word))]

ghost use Rattle.bus.specs.Lent.{does};
ghost use Rattle.measuring.specs.Word.{read_word};
ghost use Rattle.measuring.specs.Inside.{as_word};

use bus::Bus;
use bus::link::Link;
use raw::short;
use refusals::Error;

#[inline(always)]
pub(crate) fn read_word(link: Link, reg: u8, bus: &mut Bus) -> Result<u16, Error>
    ensures { does (read_word link reg) bus (as_word result) }
{
    let mut bytes = [0u8; 2];
    short::read(link, reg, &mut bytes, bus)?;
    Ok(u16::from_be_bytes(bytes))
}
