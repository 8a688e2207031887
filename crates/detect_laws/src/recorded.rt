// How a detection ends that has sound documents and makes a record.
ghost use Rattle.detect_laws.specs.Recorded.{FaultlessRecordedDetectionsEnd, SoundRecordedDetectionsEnd};

/// A detection whose record is within its limit, and which else is as `sound_detection_ends` has it, ends as one without a
/// record does.
pub fn sound_recorded_detection_ends()
    ensures ends { SoundRecordedDetectionsEnd }
    ensures well { FaultlessRecordedDetectionsEnd }
{}
