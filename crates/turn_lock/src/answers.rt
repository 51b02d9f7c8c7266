//! What a call writes for its answer.

ghost use Rattle.tracker_model.specs.declared.answer.Answer.{Answer};

use tracker_model::Answer;

/// A value that stands for a call's answer, in the form in which the call writes it. So an entry
/// can be told without the room that an `Answer` has for peers.
pub trait AsAnswer {
    /// The answer that it stands for.
    ghost answer: { Self → Answer };
}

impl AsAnswer for Answer {
    ghost answer = { λ answer. answer };
}
