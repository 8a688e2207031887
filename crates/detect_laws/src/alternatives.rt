// Build Plans without alternatives have few trials.
ghost use Rattle.detect_laws.specs.Alternatives.{OneAlternativeIsFewTrials};

/// Where no child's Build Plan has an alternative, the limit of trials is kept.
pub fn plans_without_alternatives_have_few_trials()
    ensures few { OneAlternativeIsFewTrials }
{}
