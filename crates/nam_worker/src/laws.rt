//! What a client answers.

ghost use Rattle.nam_worker.specs.CallAnswers.{WordAnswersLaw, AskAnswersLaw};

/// Whatever words are found, the answer to a client's call is one to that call, whether it comes with a word or takes
/// none. So a driver may be handed it.
pub fn answers_fit()
    ensures words { WordAnswersLaw }
    ensures asks { AskAnswersLaw }
{}
