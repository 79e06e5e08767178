// The fields of records and of a share, and how many bytes each has. The same tables as specs/Fields.antt and
// specs/Names.antt.
ghost use Rattle.std.specs.Prelude.{◌≡◌, option_copied};
ghost use Rattle.notation.specs.Fields.{width_of};
ghost use Rattle.notation.specs.Kinds.{share_fields};
ghost use Rattle.notation.specs.Names.{field_name};

use message::layout;

/// What a record or a message has after its kind: numbers with a name, or what has a notation of its own.
#[derive(Clone, Copy, Debug, PartialEq, Eq)]
pub enum Field {
    Flow,
    Switch,
    Cause,
    Controller,
    Place,
    Serial,
    Number,
    Rule,
    Message,
    Tag,
}

/// What follows the kind of a share.
pub fn share_fields() -> &'static [Field]
    ensures { result.now ≡ share_fields }
{
    &[
        Field::Controller,
        Field::Switch,
        Field::Number,
        Field::Rule,
        Field::Tag,
    ]
}

impl Field {
    /// The bytes of a field.
    pub fn width(self) -> usize
        ensures { result ≡ width_of self }
    {
        match self {
            Field::Flow | Field::Switch | Field::Cause | Field::Controller | Field::Place => 1,
            Field::Serial | Field::Number => 4,
            Field::Rule => 7,
            Field::Message => layout::SHARE_LENGTH,
            Field::Tag => tag::LENGTH,
        }
    }

    /// The name of a field that is a number; none of another.
    pub fn name(self) -> Option<&'static str>
        ensures { option_copied result ≡ field_name self }
    {
        match self {
            Field::Flow => Some("flow"),
            Field::Switch => Some("switch"),
            Field::Cause => Some("cause"),
            Field::Controller => Some("controller"),
            Field::Place => Some("place"),
            Field::Serial => Some("serial"),
            Field::Number => Some("number"),
            Field::Rule | Field::Message | Field::Tag => None,
        }
    }
}
