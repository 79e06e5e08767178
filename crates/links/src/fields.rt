// The fields of links and of client lines, with the words in front of them.
use crate::parse::{Expected, Fault};
use crate::values::{Prefix, is_name, prefix_of};
use crate::words::Words;

// What stands for the outside: one more than the last switch.
const OUTSIDE: u8 = 16;

impl<'a> Words<'a> {
    pub(crate) fn switch(&mut self) -> Result<u8, Fault<'a>> {
        self.named(b"switch", Expected::Switch)?;
        let switch = self.number(0, 15, Expected::SwitchNumber)?;
        Ok(switch as u8)
    }

    pub(crate) fn port(&mut self) -> Result<u16, Fault<'a>> {
        self.named(b"port", Expected::Port)?;
        self.number(1, 65535, Expected::PortNumber)
    }

    // What a link leads to.
    pub(crate) fn far(&mut self) -> Result<u8, Fault<'a>> {
        self.named(b"to", Expected::To)?;
        if self.is_next(b"switch") {
            return self.switch();
        }
        self.named(b"outside", Expected::Next)?;
        Ok(OUTSIDE)
    }

    // The next word as a client's name.
    fn name(&mut self, expected: Expected) -> Result<&'a [u8], Fault<'a>> {
        let name = self.next;
        if !is_name(name) {
            return Err(self.fault(expected));
        }
        self.pass();
        Ok(name)
    }

    // Who may use a link: a client, or all.
    pub(crate) fn owner(&mut self) -> Result<Option<&'a [u8]>, Fault<'a>> {
        self.named(b"of", Expected::Of)?;
        if self.is_next(b"all") {
            self.pass();
            return Ok(None);
        }
        let name = self.name(Expected::Owner)?;
        Ok(Some(name))
    }

    // One client.
    pub(crate) fn client(&mut self) -> Result<&'a [u8], Fault<'a>> {
        if self.is_next(b"all") {
            return Err(self.fault(Expected::Client));
        }
        self.name(Expected::Client)
    }

    pub(crate) fn prefix(&mut self) -> Result<Prefix, Fault<'a>> {
        let Some(prefix) = prefix_of(self.next) else {
            return Err(self.fault(Expected::Prefix));
        };
        if !flow::prefix_ok(prefix.address, prefix.length) {
            return Err(self.fault(Expected::Bits(prefix)));
        }
        self.pass();
        Ok(prefix)
    }

    // Where a client's packets come in.
    pub(crate) fn place(&mut self) -> Result<u8, Fault<'a>> {
        self.named(b"at", Expected::At)?;
        self.switch()
    }
}
