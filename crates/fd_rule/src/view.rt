use std::marker::Model;

/// What a seat knows. It exists in proofs alone: no value of it is made.
#[derive(Drop)]
pub struct SeatView {
    nothing: (),
}

impl Model for SeatView {
    ghost use Rattle.fd_rule.specs.View.{View, no_view};

    ghost Value = { View };

    ghost view = { λ _. no_view };
}
