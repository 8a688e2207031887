// That there are detections with sound documents.
ghost use Rattle.std.specs.Prelude.{Err, [], ◌∷◌, false};
ghost use Rattle.cnb_detect.specs.declared.refusal.DetectRefusal.TheVariants.{NoGroup};
ghost use Rattle.cnb_detect.specs.declared.target.TargetSource.TheVariants.{Document};
ghost use Rattle.detect_laws.specs.Small.{small_files};
ghost use Rattle.detect_laws.specs.SmallRun.{small_options, small_outside, small_ran};
ghost use Rattle.detect_laws.specs.Sound.{DetectsSoundly, IsSound};

/// An order file that names one buildpack, this buildpack's descriptor and the folders around them are sound, and where
/// its child says that the buildpack isn't for the app, the detection ends with status 20.
pub fn a_small_detection_is_sound()
    ensures sound { IsSound Document small_options small_files }
    ensures ends { DetectsSoundly Document small_options [] small_files (small_outside []) (Err (NoGroup false))
        (small_outside (small_ran ∷ [])) }
{}
