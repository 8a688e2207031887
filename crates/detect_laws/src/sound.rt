// How a detection ends that has sound documents.
ghost use Rattle.detect_laws.specs.Sound.{FaultlessDetectionsEnd, SoundDetectionsEnd};

/// Where the order file, the buildpacks' descriptors, the target's document and the environment files are valid and within
/// their limits, and each entry of the order names one buildpack that is there, `detect` is done, or no group passes, or
/// memory ran out, or a call on a file or a child failed. It is refused for nothing else.
pub fn sound_detection_ends()
    ensures ends { SoundDetectionsEnd }
    ensures well { FaultlessDetectionsEnd }
{}
