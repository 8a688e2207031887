// What is known of a detection by what it comes to alone.
ghost use Rattle.cnb_detect.specs.FirstTrial.{DetectsFirstTrial};

/// Where the files are told, what `detect` comes to says of itself that exactly the children were asked that have to be,
/// and that the first trial that passes by their answers, in whatever order these came, is the choice that it wrote, or
/// that none passes.
pub fn first_trial_decides()
    ensures decides { DetectsFirstTrial }
{}
