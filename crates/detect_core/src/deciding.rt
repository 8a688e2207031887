// What decides a choice.
ghost use Rattle.detect_core.specs.Deciding.{AnswersDecide};

/// The answers of the buildpacks that have to be asked decide which are asked and what is chosen, however they came. So
/// two detections with any numbers of workers, whose children answer alike in whatever order they finish, choose alike.
pub fn answers_decide()
    ensures decide { AnswersDecide }
{}
