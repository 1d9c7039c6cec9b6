ghost use Rattle.std.specs.Prelude.{◌≡◌, ◌<◌, ℕ, List};
ghost use Rattle.fd_wire.specs.declared.field.WireValue.{WireValue};
ghost use Rattle.fd_proto.specs.Shape.{value_flaw};
ghost use Rattle.fd_proto.specs.MessageShapes.{shape_of, held_flaw, IsAbove};

/// The messages of a profile.
#[derive(Clone, Copy, Debug, PartialEq, Eq)]
pub(crate) enum Message {
    ValueType,
    Label,
    Sample,
    Mapping,
    Line,
    Location,
    Function,
    Profile,
}

/// What the values of a field are read as.
#[derive(Clone, Copy, Debug, PartialEq, Eq)]
pub(crate) enum Holds {
    Nothing,
    Numbers,
    Part(Message),
}

#[tactic(auto, unfolding(crate::specs::Shape::profile))]
/// What the fields of a number hold in a message.
pub(crate) fn held_in(message: Message, number: u32) -> Holds
    ensures flaw { (bytes : List ℕ) (value : WireValue) →
        value_flaw bytes (shape_of message) (record { number = number; value = value })
        ≡ held_flaw bytes value result }
    ensures inner { IsAbove message result }
{
    match (message, number) {
        (Message::Profile, 1 | 11) => Holds::Part(Message::ValueType),
        (Message::Profile, 2) => Holds::Part(Message::Sample),
        (Message::Profile, 3) => Holds::Part(Message::Mapping),
        (Message::Profile, 4) => Holds::Part(Message::Location),
        (Message::Profile, 5) => Holds::Part(Message::Function),
        (Message::Profile, 13) => Holds::Numbers,
        (Message::Sample, 1 | 2) => Holds::Numbers,
        (Message::Sample, 3) => Holds::Part(Message::Label),
        (Message::Location, 4) => Holds::Part(Message::Line),
        _ => Holds::Nothing,
    }
}
