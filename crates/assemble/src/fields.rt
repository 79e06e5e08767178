// The fields of records and of shares, read from a line.
use crate::parse::{Before, Expected, Fault, Line};
use crate::values::prefix_of;
use message::layout;
use notation::{Field, Kind, MESSAGE_AT};

impl<'a> Line<'a> {
    // A number of one byte, with no name in front of it.
    pub(crate) fn small(&mut self) -> Result<(), Fault<'a>> {
        let n = self.number(0, 255)?;
        self.pattern.push(&[n as u8]);
        Ok(())
    }

    // Whether `all` may stand for this field of the record that is read.
    fn takes_all(&self, field: Field) -> bool {
        matches!(
            (field, self.pattern.kind()),
            (
                Field::Controller,
                Some(Kind::Decide | Kind::Send | Kind::Report)
            ) | (Field::Switch, Some(Kind::Send | Kind::Report))
        )
    }

    // `all` for a controller or a switch; a 0 keeps its place in the record.
    fn all(&mut self, field: Field) -> Result<(), Fault<'a>> {
        if self.before != Before::Script {
            return Err(self.fault(Expected::Early));
        }
        self.words.pass();
        self.pattern.push(&[0]);
        match field {
            Field::Controller => self.pattern.controllers = true,
            _ => self.pattern.switches = true,
        }
        Ok(())
    }

    fn small_or_all(&mut self, field: Field) -> Result<(), Fault<'a>> {
        if self.words.is_next(b"all") {
            return self.all(field);
        }
        let Ok(n) = self.number(0, 255) else {
            return Err(self.fault(Expected::NumberOrAll));
        };
        self.pattern.push(&[n as u8]);
        Ok(())
    }

    // Numbers of one and of four bytes with their names.
    fn small_field(&mut self, field: Field) -> Result<(), Fault<'a>> {
        self.named(field)?;
        if self.takes_all(field) {
            self.small_or_all(field)
        } else {
            self.small()
        }
    }

    fn wide_field(&mut self, field: Field) -> Result<(), Fault<'a>> {
        self.named(field)?;
        let n = self.number(0, answer::limits::LARGEST)?;
        self.pattern.push(&n.to_be_bytes());
        Ok(())
    }

    fn prefix(&mut self) -> Result<(), Fault<'a>> {
        let Some(parts) = prefix_of(self.words.next) else {
            return Err(self.fault(Expected::Prefix));
        };
        self.words.pass();
        self.pattern.push(&parts);
        Ok(())
    }

    // The port of a rule; a rule that removes has port 0.
    fn action(&mut self) -> Result<(), Fault<'a>> {
        if self.takes(b"remove") {
            self.pattern.push(&[0, 0]);
            return Ok(());
        }
        if !self.takes(b"port") {
            return Err(self.fault(Expected::Action));
        }
        let port = self.number(1, 65535)? as u16;
        self.pattern.push(&port.to_be_bytes());
        Ok(())
    }

    fn rule(&mut self) -> Result<(), Fault<'a>> {
        self.prefix()?;
        self.action()
    }

    // A controller or a switch that has keys.
    fn keyed(&mut self, field: Field) -> Result<u8, Fault<'a>> {
        self.named(field)?;
        let n = self.number(0, 15)?;
        Ok(n as u8)
    }

    // The tag that the key of a pair gives.
    fn key(&mut self) -> Result<(), Fault<'a>> {
        let controller = self.keyed(Field::Controller)?;
        let switch = self.keyed(Field::Switch)?;
        let given = notation::tag_by(controller, switch, self.pattern.message());
        self.pattern.push(&given);
        Ok(())
    }

    // A tag in bytes, which is doubted where a key gives it.
    fn written_tag(&mut self) -> Result<(), Fault<'a>> {
        self.hex_bytes(tag::LENGTH)?;
        if let Some(pair) = notation::giver_of(self.pattern.message()) {
            self.late = Some(Fault {
                expected: Expected::Key(pair),
                found: b"tag",
            });
        }
        Ok(())
    }

    fn tag(&mut self) -> Result<(), Fault<'a>> {
        if self.takes(b"key") {
            return self.key();
        }
        if self.takes(b"tag") {
            return self.written_tag();
        }
        Err(self.fault(Expected::Tag))
    }

    // A field that is no message: a number with its name in front, as wide as the field is, a rule or a tag.
    fn plain(&mut self, field: Field) -> Result<(), Fault<'a>> {
        match field {
            Field::Message => Ok(()),
            Field::Rule => self.rule(),
            Field::Tag => self.tag(),
            _ if field.width() == 1 => self.small_field(field),
            _ => self.wide_field(field),
        }
    }

    // The fields of a share.
    fn share(&mut self) -> Result<(), Fault<'a>> {
        self.pattern.push(&[layout::SHARE]);
        for field in notation::share_fields() {
            self.plain(*field)?;
        }
        Ok(())
    }

    // A message in bytes, which is doubted where it is a share.
    fn written_message(&mut self) -> Result<(), Fault<'a>> {
        self.hex_bytes(layout::SHARE_LENGTH)?;
        if self.pattern.byte(MESSAGE_AT) == layout::SHARE {
            self.late = Some(Fault {
                expected: Expected::Share,
                found: b"bytes",
            });
        }
        Ok(())
    }

    fn message(&mut self) -> Result<(), Fault<'a>> {
        if self.takes(b"share") {
            return self.share();
        }
        if self.takes(b"bytes") {
            return self.written_message();
        }
        Err(self.fault(Expected::Message))
    }

    // The fields of a kind of records.
    pub(crate) fn fields(&mut self, kind: Kind) -> Result<(), Fault<'a>> {
        for field in kind.fields() {
            match field {
                Field::Message => self.message()?,
                field => self.plain(*field)?,
            }
        }
        Ok(())
    }
}
