// Records, messages and their fields in words. Each begins with the space before it.
use lists::{behind, byte_at};
use message::layout;
use notation::{Field, Kind, Pair};
use prose::Prefix;
use std::fmt;

/// Bytes, each as two hexadecimal digits.
#[derive(Clone, Copy)]
pub(crate) struct Bytes<'a>(pub(crate) &'a [u8]);

impl fmt::Display for Bytes<'_> {
    fn fmt<W: fmt::Write>(&self, f: &mut fmt::Formatter<W>) -> fmt::Result {
        for byte in self.0 {
            write!(f, " {byte:02X}")?;
        }
        Ok(())
    }
}

// The rule at the front.
#[derive(Clone, Copy)]
struct RuleFields<'a>(&'a [u8]);

impl fmt::Display for RuleFields<'_> {
    fn fmt<W: fmt::Write>(&self, f: &mut fmt::Formatter<W>) -> fmt::Result {
        let s = self.0;
        let prefix = Prefix {
            address: u32_of(s),
            length: byte_at(s, 4),
        };
        match lists::u16_of(byte_at(s, 5), byte_at(s, 6)) {
            0 => write!(f, " {prefix} remove"),
            port => write!(f, " {prefix} port {port}"),
        }
    }
}

// The tag of a share, as its key where one gives it.
#[derive(Clone, Copy)]
struct TagOf<'a>(&'a [u8]);

impl fmt::Display for TagOf<'_> {
    fn fmt<W: fmt::Write>(&self, f: &mut fmt::Formatter<W>) -> fmt::Result {
        let share = self.0;
        match notation::giver_of(share) {
            Some(Pair { controller, switch }) => {
                write!(f, " key controller {controller} switch {switch}")
            }
            None => write!(f, " tag{}", Bytes(behind(share, layout::SHARE_BODY))),
        }
    }
}

fn u32_of(s: &[u8]) -> u32 {
    lists::u32_of(byte_at(s, 0), byte_at(s, 1), byte_at(s, 2), byte_at(s, 3))
}

// A field that is a number, at the front and as wide as the field is, or what has a notation of its own. The tag is that
// of the whole share.
#[derive(Clone, Copy)]
struct Plain<'a> {
    field: Field,
    share: &'a [u8],
    s: &'a [u8],
}

impl fmt::Display for Plain<'_> {
    fn fmt<W: fmt::Write>(&self, f: &mut fmt::Formatter<W>) -> fmt::Result {
        match self.field {
            Field::Message => Ok(()),
            Field::Rule => write!(f, "{}", RuleFields(self.s)),
            Field::Tag => write!(f, "{}", TagOf(self.share)),
            field => {
                let name = field.name().unwrap_or("");
                if field.width() == 1 {
                    write!(f, " {name} {}", byte_at(self.s, 0))
                } else {
                    write!(f, " {name} {}", u32_of(self.s))
                }
            }
        }
    }
}

// A message, as a share where it is one.
#[derive(Clone, Copy)]
struct MessageFields<'a>(&'a [u8]);

impl fmt::Display for MessageFields<'_> {
    fn fmt<W: fmt::Write>(&self, f: &mut fmt::Formatter<W>) -> fmt::Result {
        let share = self.0;
        if byte_at(share, 0) != layout::SHARE {
            return write!(f, " bytes{}", Bytes(share));
        }
        write!(f, " share")?;
        let mut s = behind(share, 1);
        for field in notation::share_fields() {
            write!(
                f,
                "{}",
                Plain {
                    field: *field,
                    share,
                    s
                }
            )?;
            s = behind(s, field.width());
        }
        Ok(())
    }
}

/// The fields of a record.
#[derive(Clone, Copy)]
pub(crate) struct RecordFields<'a> {
    pub(crate) kind: Kind,
    pub(crate) record: &'a [u8],
}

impl fmt::Display for RecordFields<'_> {
    fn fmt<W: fmt::Write>(&self, f: &mut fmt::Formatter<W>) -> fmt::Result {
        let mut s = behind(self.record, 1);
        for field in self.kind.fields() {
            match field {
                Field::Message => write!(f, "{}", MessageFields(s))?,
                field => write!(
                    f,
                    "{}",
                    Plain {
                        field: *field,
                        share: s,
                        s
                    }
                )?,
            }
            s = behind(s, field.width());
        }
        Ok(())
    }
}
